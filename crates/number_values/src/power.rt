// What stands behind a mantissa: the end of the word, or `e` or `E`, a sign if there is one, one or two digits, and the end.
ghost use Rattle.std.specs.Prelude.{◌≡◌, ◌<◌, ◌≤◌, pos, ◌-ℤ◌};
ghost use Rattle.numbers.specs.Numbers.{power_mark, with_sign};
ghost use Rattle.numbers.specs.Answers.{sign_if, power_in};
ghost use Rattle.numbers.specs.Spelled.{SignLeads, Raised, Powered};
ghost use Rattle.numbers.specs.Stream.{char_at};

use super::signed;
use number_lists::chars::{char_at, digits, word_ends};
use numbers::{Decimal, Lead, Source};

// The sign at `at`, if there is one.
#[tactic(auto, using(numbers::proofs::Laws::Signs::signs_of))]
pub(crate) fn sign_at(text: &[u8], at: usize, source: Source) -> Lead
    ensures { SignLeads source text.now at result }
{
    match char_at(text, at, source) {
        Some((b, j)) if b == b'-' => Lead {
            negative: true,
            next: j,
        },
        Some((b, j)) if b == b'+' => Lead {
            negative: false,
            next: j,
        },
        _ => Lead {
            negative: false,
            next: at,
        },
    }
}

// The power of that sign and size, from -45 to 45.
fn within(negative: bool, n: u64) -> Option<i64>
    ensures { result ≡ power_in (with_sign (sign_if negative) n) }
{
    if 45 < n {
        return None;
    }
    Some(signed(negative, n))
}

// A written power less the places.
fn less_places(negative: bool, n: u64, places: u64) -> Option<i64>
    requires { (n < 100) × (places ≤ 15) }
    ensures { result ≡ power_in (with_sign (sign_if negative) n -ℤ pos places) }
{
    if negative {
        return within(true, n + places);
    }
    if n < places {
        return within(true, places - n);
    }
    within(false, n - places)
}

// The digits of a power, its sign being read.
fn power_digits(
    text: &[u8],
    at: usize,
    source: Source,
    negative: bool,
    amount: i64,
    places: u64,
) -> Option<(Decimal, usize)>
    requires { places ≤ 15 }
    ensures { Raised source text.now at (sign_if negative) amount places result }
{
    let run = digits(text, at, source, 2, 0);
    if run.count == 0 || !word_ends(text, run.next, source) {
        return None;
    }
    let power = less_places(negative, run.value, places)?;
    Some((Decimal { amount, power }, run.next))
}

#[tactic(auto, unfolding(numbers::specs::Numbers::power_mark))]
fn is_mark(b: u8) -> bool
    ensures { result ≡ power_mark b }
{
    matches!(b, b'E' | b'e')
}

// What stands at `at`, behind a mantissa with so many places, `c` being read there.
pub(crate) fn power_at(
    text: &[u8],
    c: Option<(u8, usize)>,
    at: usize,
    source: Source,
    amount: i64,
    places: u64,
) -> Option<(Decimal, usize)>
    requires { (c ≡ char_at source text.now at) × (places ≤ 15) }
    ensures { Powered source text.now at amount places result }
{
    match c {
        Some((b, j)) => {
            if letters::classes::is_blank(b) {
                let power = signed(true, places);
                return Some((Decimal { amount, power }, at));
            }
            if !is_mark(b) {
                return None;
            }
            let lead = sign_at(text, j, source);
            power_digits(text, lead.next, source, lead.negative, amount, places)
        }
        None => {
            let power = signed(true, places);
            Some((Decimal { amount, power }, at))
        }
    }
}
