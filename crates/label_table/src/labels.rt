// The labels of the table at a place, one after the other, and the key of each.
ghost use Rattle.std.specs.Prelude.{◌≡◌};
ghost use Rattle.label_table.specs.Labels.{label_from, first_label, next_label, key_here};

use elements::children::{first_child, next_child};
use inside::attributes::attribute;
use inside::names::name_is;
use keys::key_value;

// The first Label from a child on.
fn label_from(text: &[u8], from: Option<usize>) -> Option<usize>
    ensures { result ≡ label_from text.now from }
{
    let mut kid = from;
    loop {
        match kid {
            Some(k) => {
                if name_is(text, k, b"Label") {
                    return Some(k);
                }
                kid = next_child(text, k);
            }
            None => {
                return None;
            }
        }
    }
}

// The first Label of the table at `at`.
pub fn first_label(text: &[u8], at: usize) -> Option<usize>
    ensures { result ≡ first_label text.now at }
{
    label_from(text, first_child(text, at))
}

// The next Label behind the one at `at`.
pub fn next_label(text: &[u8], at: usize) -> Option<usize>
    ensures { result ≡ next_label text.now at }
{
    label_from(text, next_child(text, at))
}

// The key of the Label at `at`; 0 where it has none that is in form.
pub fn key_of(text: &[u8], at: usize) -> i32
    ensures { result ≡ key_here text.now at }
{
    match attribute(text, at, b"Key") {
        Some(v) => key_value(text, v).unwrap_or(0),
        None => 0,
    }
}
