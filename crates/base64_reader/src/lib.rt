// Base64 in a text: the bytes of the next four letters, and whether a text is Base64.
#![tactic(auto)]

// The next letter that is no blank, and its value.
mod values;
// The bytes of the next four letters.
mod groups;
// Sixteen plain letters at once.
mod sixteen;

ghost use Rattle.std.specs.Prelude.{◌≡◌, Bool};
ghost use Rattle.nodes.specs.Texts.{says_at, text_of_lem};
ghost use Rattle.base64_text.specs.Base64.{coded};

pub use groups::{any_group, quick_bits};
use sixteen::sixteen_letters;
pub use values::{LetterValues, letter_values};

// One to three bytes as one number, how many they are, and the place behind their letters. The end is no fault, so that there are three
// answers, which neither Option nor Result says.
#[derive(Clone, Copy)]
pub enum Group {
    Bytes(u64, usize, usize),
    End,
    Bad,
}

// The contents from `at` on are Base64.
fn coded_from(text: &[u8], at: usize) -> bool
    ensures { result ≡ coded (says_at text.now at) }
{
    let values = letter_values();
    let mut i = at;
    loop {
        if sixteen_letters(text, i) {
            i += 16;
        } else if quick_bits(text, i, &values) < 16777216 {
            i += 4;
        } else {
            match any_group(text, i, &values) {
                Group::Bytes(_, _, j) => {
                    i = j;
                }
                Group::End => {
                    return true;
                }
                Group::Bad => {
                    return false;
                }
            }
        }
    }
}

// The text of the element at `at` is Base64.
pub fn are_coded(text: &[u8], at: usize) -> bool
    ensures { result ≡ coded (text_of_lem text.now at) }
{
    match inside::texts::text_start(text, at) {
        Some(i) => coded_from(text, i),
        None => true,
    }
}
