// Conditions 1 to 7, in the paper's order.
ghost use Rattle.std.specs.Prelude.{◌≡◌};
ghost use Rattle.cifti.specs.Conditions.{lengths_wrong};
ghost use Rattle.numbered_rows.specs.Checks.{JudgedCifti};
ghost use Rattle.opening.specs.Opening.{Opens, RootFound};

use super::root::root_wrong;
use super::unread::kind_not_read;
use elements::children::first_child;
use maps::limits::{MOST_BYTES, MOST_RECORDS};

// The number of the first that applies; where it is 0, the matrix begins at `matrix`.
#[derive(Clone, Copy)]
pub struct Opening {
    pub number: u64,
    pub matrix: usize,
}

// Condition 1.
fn lengths_wrong(lengths: &[u64]) -> bool
    ensures { result ≡ lengths_wrong lengths.now }
{
    if lengths.len() < 2 {
        return true;
    }
    if 3 < lengths.len() {
        return true;
    }
    for i in 0..lengths.len() {
        if lengths[i] == 0 {
            return true;
        }
        if MOST_RECORDS < lengths[i] {
            return true;
        }
    }
    false
}

// Conditions 4 to 7, at the root, whose fault by 6 and 7 is known: where they do not apply, neither does 5.
fn of_root(text: &[u8], root: usize, fault: u8) -> Opening
    requires { JudgedCifti text.now root fault }
    ensures { RootFound text.now root result }
{
    if root_wrong(text, root) {
        return Opening {
            number: 4,
            matrix: 0,
        };
    }
    if fault != 0 {
        if kind_not_read(text, root) {
            return Opening {
                number: 5,
                matrix: 0,
            };
        }
        return Opening {
            number: fault as u64,
            matrix: 0,
        };
    }
    match first_child(text, root) {
        Some(m) => Opening {
            number: 0,
            matrix: m,
        },
        None => Opening {
            number: 0,
            matrix: 0,
        },
    }
}

pub fn opened(text: &[u8], lengths: &[u64]) -> Opening
    ensures { Opens text.now lengths.now result }
{
    if lengths_wrong(lengths) {
        return Opening {
            number: 1,
            matrix: 0,
        };
    }
    if MOST_BYTES < text.len() {
        return Opening {
            number: 2,
            matrix: 0,
        };
    }
    let checked = vocabulary::checked(text);
    if checked.number == 3 {
        return Opening {
            number: 3,
            matrix: 0,
        };
    }
    of_root(text, checked.root, checked.number)
}
