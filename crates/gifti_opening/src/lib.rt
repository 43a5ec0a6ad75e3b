// Conditions 2, 3, 4, 6, 29 and 7 of a GIFTI text, in the paper's order, and where its root stands.
#![tactic(auto)]

ghost use Rattle.std.specs.Prelude.{◌≡◌};
ghost use Rattle.numbered_rows.specs.Checks.{JudgedGifti};
ghost use Rattle.gifti_opening.specs.Opening.{OpensGifti, OpensRoot};

use arrays::array_not_read;
use maps::limits::MOST_BYTES;
use root::root_wrong;

// 4.
mod root;
// 29.
mod arrays;

// The number of the first that applies; where it is 0, the root begins at `root`.
#[derive(Clone, Copy)]
pub struct GiftiOpening {
    pub number: u64,
    pub root: usize,
}

// Conditions 4 to 7, at the root, whose fault by 6 and 7 is known.
fn of_root(text: &[u8], root: usize, fault: u8) -> GiftiOpening
    requires { JudgedGifti text.now root fault }
    ensures { OpensRoot text.now root result }
{
    if root_wrong(text, root) {
        return GiftiOpening { number: 4, root: 0 };
    }
    if fault == 6 {
        return GiftiOpening { number: 6, root: 0 };
    }
    if array_not_read(text, root) {
        return GiftiOpening {
            number: 29,
            root: 0,
        };
    }
    if fault == 0 {
        return GiftiOpening { number: 0, root };
    }
    GiftiOpening { number: 7, root: 0 }
}

pub fn gifti_opened(text: &[u8]) -> GiftiOpening
    ensures { OpensGifti text.now result }
{
    if MOST_BYTES < text.len() {
        return GiftiOpening { number: 2, root: 0 };
    }
    let checked = vocabulary::gifti_checked(text);
    if checked.number == 3 {
        return GiftiOpening { number: 3, root: 0 };
    }
    of_root(text, checked.root, checked.number)
}
