// All arrays of a file, against a part of the table.
ghost use Rattle.nodes.specs.Places.{the};
ghost use Rattle.gifti_arrays.specs.Ready.{ArraysAsked};
ghost use Rattle.gifti_arrays.specs.Arrays.{ArraysTold};

use super::array::array_told;
use elements::children::{first_child, next_child};
use inside::names::name_is;

// How many arrays there are, whether each has as many keys as it is to have; how many keys, and how many of them stand in the part of the
// table.
#[derive(Clone, Copy)]
pub struct Told {
    pub arrays: usize,
    pub fit: bool,
    pub keys: usize,
    pub known: usize,
}

pub fn arrays_told(text: &[u8], root: usize, codes: &[u32]) -> Told
    requires { ArraysAsked text.now root codes.now }
    ensures { ArraysTold (the text.now root) codes.now result }
{
    let mut arrays = 0;
    let mut fit = true;
    let mut keys = 0;
    let mut known = 0;
    let mut kid = first_child(text, root);
    loop {
        match kid {
            Some(k) => {
                kid = next_child(text, k);
                if name_is(text, k, b"DataArray") {
                    let told = array_told(text, k, codes);
                    arrays += 1;
                    fit = fit & told.fits;
                    keys += told.keys;
                    known += told.known;
                }
            }
            None => {
                return Told {
                    arrays,
                    fit,
                    keys,
                    known,
                };
            }
        }
    }
}
