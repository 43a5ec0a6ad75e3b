// Decimals with powers of ten: of one value, and the row of sixteen.
ghost use Rattle.std.specs.Prelude.{◌≡◌};
ghost use Rattle.nodes.specs.Values.{value_there};
ghost use Rattle.nodes.specs.Texts.{says_at};
ghost use Rattle.numbers.specs.Numbers.{sixteen};
ghost use Rattle.numbers.specs.Answers.{decimal_in};

use super::in_value::right_at;
use super::written::decimal_at;
use number_lists::chars::{blanks, char_at, letter};
use numbers::{Decimal, Source};

// The decimal that the value at `at` writes.
pub fn decimal_value(text: &[u8], at: usize) -> Option<Decimal>
    ensures { result ≡ decimal_in (value_there text.now at) }
{
    let source = Source::Value(*text.get(at)?);
    let (d, j) = decimal_at(text, at + 1, source)?;
    match char_at(text, j, source) {
        Some((_, _)) => None,
        None => Some(d),
    }
}

// The text from `at` on is sixteen decimals, the last four equal to 0 0 0 1.
pub fn sixteen_ok(text: &[u8], at: usize) -> bool
    ensures { result ≡ sixteen (says_at text.now at) }
{
    let mut i = at;
    for k in 0..16 {
        let from = blanks(text, i);
        match decimal_at(text, from, Source::Contents) {
            Some((d, j)) if right_at(15 - k, d) => {
                i = j;
            }
            _ => {
                return false;
            }
        }
    }
    let from = blanks(text, i);
    match letter(text, from) {
        Some((_, _)) => false,
        None => true,
    }
}
