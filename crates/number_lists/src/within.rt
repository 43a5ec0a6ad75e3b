// The next number of a list inside CDATA, where byte `i` is place text.len() + 1 + i: plain bytes first, whatever else then.
ghost use Rattle.std.specs.Prelude.{◌≡◌, ◌≤◌, length, get_or};
ghost use Rattle.grammar.specs.Bytes.{blank};
ghost use Rattle.numbers.specs.Answers.{next_number};
ghost use Rattle.number_lists.specs.Within.{in_data};

use super::listed::{number_at, plain_blanks, plain_digits, seven_on};
use numbers::Next;

// Byte `at` is a blank; behind the text there is none.
#[tactic(auto, using(crate::proofs::Laws::Within::looking))]
fn blank_byte(text: &[u8], at: usize) -> bool
    ensures { result ≡ blank (get_or text.now at 0) }
{
    match text.get(at) {
        Some(&b) => letters::classes::is_blank(b),
        None => false,
    }
}

// The next number from byte `at` inside CDATA on.
fn number_within(text: &[u8], at: usize) -> Next
    requires { at ≤ length text.now }
    ensures { result ≡ next_number text.now (in_data text.now at) }
{
    let i = plain_blanks(text, at, text.len());
    let run = plain_digits(text, i, seven_on(text, i));
    if run.count == 0 {
        return number_at(text, text.len() + 1 + i);
    }
    if blank_byte(text, run.next) {
        return Next::Number(run.value, text.len() + 1 + run.next);
    }
    number_at(text, text.len() + 1 + i)
}

// The next number from the last bytes of the text on, or inside CDATA.
pub(crate) fn late_number(text: &[u8], at: usize) -> Next
    ensures { result ≡ next_number text.now at }
{
    match at.checked_sub(text.len() + 1) {
        Some(i) if i <= text.len() => number_within(text, i),
        _ => number_at(text, at),
    }
}
