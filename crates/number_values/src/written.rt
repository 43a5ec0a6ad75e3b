// Decimals, up to a blank or the end.
ghost use Rattle.std.specs.Prelude.{◌≡◌, ◌^◌, ◌<◌, ◌≤◌};
ghost use Rattle.numbers.specs.Answers.{sign_if};
ghost use Rattle.numbers.specs.Spelled.{Pointed, Pure, Spelled};

use super::power::{power_at, sign_at};
use super::signed;
use number_lists::chars::{char_at, digits};
use numbers::{Decimal, Source};

// What stands behind the point, after `count` digits that write `before`.
pub(crate) fn places_at(
    text: &[u8],
    at: usize,
    source: Source,
    negative: bool,
    before: u64,
    count: u64,
) -> Option<(Decimal, usize)>
    requires { (count ≤ 15) × (before < 10 ^ count) }
    ensures { Pointed source text.now at before count (sign_if negative) result }
{
    let run = digits(text, at, source, 15 - count, before);
    if run.count == 0 {
        return None;
    }
    let c = char_at(text, run.next, source);
    power_at(
        text,
        c,
        run.next,
        source,
        signed(negative, run.value),
        run.count,
    )
}

// The decimal at `at`, its sign being read.
pub fn pure_decimal(
    text: &[u8],
    at: usize,
    source: Source,
    negative: bool,
) -> Option<(Decimal, usize)>
    ensures { Pure source text.now at (sign_if negative) result }
{
    let run = digits(text, at, source, 15, 0);
    if run.count == 0 {
        return None;
    }
    let c = char_at(text, run.next, source);
    match c {
        Some((b, j)) if b == b'.' => places_at(text, j, source, negative, run.value, run.count),
        _ => power_at(text, c, run.next, source, signed(negative, run.value), 0),
    }
}

// The decimal at `at`, up to a blank or the end.
pub fn decimal_at(text: &[u8], at: usize, source: Source) -> Option<(Decimal, usize)>
    ensures { Spelled source text.now at result }
{
    let lead = sign_at(text, at, source);
    pure_decimal(text, lead.next, source, lead.negative)
}
