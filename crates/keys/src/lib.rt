// The numbers of a label: its key, and its colours; and keys in a row.
#![tactic(auto)]

// A decimal in value from 0 to 1.
mod shade;
// The next key of a text, and whether a text lists keys.
mod key_lists;

ghost use Rattle.std.specs.Prelude.{◌≡◌};
ghost use Rattle.nodes.specs.Values.{value_there};
ghost use Rattle.numbers.specs.Numbers.{key, colour};
ghost use Rattle.numbers.specs.Answers.{key_in, key_limit, sign_if};
ghost use Rattle.keys.specs.Colours.{AtSight};

pub use key_lists::{ListedKey, are_keys, next_key};
use number_values::signed_value;
use shade::in_shade;

// The greatest number behind a sign.
pub fn key_limit(negative: bool) -> u64
    ensures { result ≡ key_limit (sign_if negative) }
{
    if negative { 2147483648 } else { 2147483647 }
}

// The key that the value at `at` writes.
pub fn key_value(text: &[u8], at: usize) -> Option<i32>
    ensures { result ≡ key_in (value_there text.now at) }
{
    let n = signed_value(text, at, 10, key_limit(false), key_limit(true))?;
    Some(n as i32)
}

// The value at `at` is a key.
pub fn is_key(text: &[u8], at: usize) -> bool
    ensures { result ≡ key (value_there text.now at) }
{
    key_value(text, at).is_some()
}

// Whether the value at `at` is 0 or 1 and nothing else; no says nothing.
fn is_zero_or_one(text: &[u8], at: usize) -> bool
    ensures { AtSight text.now at result }
{
    if text.len().saturating_sub(at) < 3 {
        return false;
    }
    let q = text[at];
    let d = text[at + 1];
    ((q < b'0') & (text[at + 2] == q)) & ((d == b'0') | (d == b'1'))
}

// The value at `at` is a colour.
pub fn is_colour(text: &[u8], at: usize) -> bool
    ensures { result ≡ colour (value_there text.now at) }
{
    if is_zero_or_one(text, at) {
        return true;
    }
    match number_values::decimal_value(text, at) {
        Some(d) => in_shade(d.amount, d.power),
        None => false,
    }
}
