// Condition 29: an array of another encoding, intent or type.
ghost use Rattle.std.specs.Prelude.{◌≡◌};
ghost use Rattle.nodes.specs.Places.{Stands, the};
ghost use Rattle.gifti.specs.Conditions.{encoding_read, array_not_read};
ghost use Rattle.gifti_opening.specs.Arrays.{unread};

use elements::children::{first_child, next_child};
use inside::names::name_is;
use inside::values::attribute_is;

fn encoding_read(text: &[u8], at: usize) -> bool
    requires { Stands text.now at }
    ensures { result ≡ encoding_read (the text.now at) }
{
    if attribute_is(text, at, b"Encoding", b"ASCII") {
        return true;
    }
    attribute_is(text, at, b"Encoding", b"Base64Binary")
}

fn is_unread(text: &[u8], at: usize) -> bool
    requires { Stands text.now at }
    ensures { result ≡ unread (the text.now at) }
{
    if !encoding_read(text, at) {
        return true;
    }
    if !attribute_is(text, at, b"Intent", b"NIFTI_INTENT_LABEL") {
        return true;
    }
    !attribute_is(text, at, b"DataType", b"NIFTI_TYPE_INT32")
}

pub(crate) fn array_not_read(text: &[u8], root: usize) -> bool
    requires { Stands text.now root }
    ensures { result ≡ array_not_read (the text.now root) }
{
    let mut kid = first_child(text, root);
    loop {
        match kid {
            Some(k) => {
                kid = next_child(text, k);
                if name_is(text, k, b"DataArray") {
                    if is_unread(text, k) {
                        return true;
                    }
                }
            }
            None => {
                return false;
            }
        }
    }
}
