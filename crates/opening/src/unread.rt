// Condition 5: a MatrixIndicesMap in a Matrix in the root is of kind PARCELS.
ghost use Rattle.std.specs.Prelude.{◌≡◌};
ghost use Rattle.grammar.specs.Bytes.{ascii};
ghost use Rattle.nodes.specs.Names.{named};
ghost use Rattle.nodes.specs.Places.{Stands, the};
ghost use Rattle.cifti.specs.Conditions.{kind_not_read};
ghost use Rattle.maps.specs.Unread.{not_read};
ghost use Rattle.opening.specs.Unread.{level_name, level_not_read};

use elements::children::{first_child, next_child};
use inside::attributes::attribute;
use inside::names::name_is;
use inside::values::value_is;

fn map_not_read(text: &[u8], at: usize) -> bool
    requires { Stands text.now at }
    ensures { result ≡ not_read (the text.now at) }
{
    match attribute(text, at, b"IndicesMapToDataType") {
        Some(v) => value_is(text, v, b"CIFTI_INDEX_TYPE_PARCELS"),
        None => false,
    }
}

// The element at `at` has the name of those that stand so many levels above maps.
fn level_named(text: &[u8], at: usize, level: u64) -> bool
    ensures { result ≡ named text.now at (ascii (level_name level)) }
{
    if level == 0 {
        return name_is(text, at, b"MatrixIndicesMap");
    }
    name_is(text, at, b"Matrix")
}

// A map so many levels below the element at `at` is not read.
fn level_not_read(text: &[u8], at: usize, level: u64) -> bool
    requires { Stands text.now at }
    ensures { result ≡ level_not_read level (the text.now at) }
{
    if level == 0 {
        return map_not_read(text, at);
    }
    let mut kid = first_child(text, at);
    loop {
        match kid {
            Some(k) => {
                kid = next_child(text, k);
                if level_named(text, k, level - 1) {
                    if level_not_read(text, k, level - 1) {
                        return true;
                    }
                }
            }
            None => {
                return false;
            }
        }
    }
}

pub(crate) fn kind_not_read(text: &[u8], root: usize) -> bool
    requires { Stands text.now root }
    ensures { result ≡ kind_not_read (the text.now root) }
{
    level_not_read(text, root, 2)
}
