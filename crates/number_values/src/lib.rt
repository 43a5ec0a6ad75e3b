// Numbers of one value: whole numbers, lengths, dimension lists, exponents, decimals with powers of ten; and the row of sixteen decimals.
#![tactic(auto)]

// What stands behind a mantissa.
mod power;
// A decimal at a place.
mod written;
// A decimal beside 0 and 1, in value.
pub mod in_value;
// The decimal that a value writes, and the row of sixteen.
mod decimals;

ghost use Rattle.std.specs.Prelude.{◌≡◌, ℕ, ◌+◌, ◌*◌, ◌-◌, ◌^◌, ◌<◌, ◌≤◌, Bool, cond, length, min};
ghost use Rattle.nodes.specs.Values.{value_there};
ghost use Rattle.numbers.specs.Numbers.{with_sign};
ghost use Rattle.numbers.specs.Stream.{stream};
ghost use Rattle.grammar.specs.Bytes.{between};
ghost use Rattle.numbers.specs.Answers.{whole_in, listed_in, between_in, three_in, exponent_in, sign_if};
ghost use Rattle.numbers.specs.Parted.{Parted, alone_in, signed_in};
ghost use Rattle.numbers.specs.declared.Source.TheVariants.{Value};

pub use decimals::{decimal_value, sixteen_ok};
use number_lists::chars::{char_at, digits};
use numbers::{Lengths, Part, Source};

// The number at `at` up to a comma or the end.
fn short_part(text: &[u8], at: usize, source: Source, most: u64, lo: u64, hi: u64) -> Part
    requires { most ≤ 15 }
    ensures { Parted source text.now most lo hi at result }
{
    let run = digits(text, at, source, most, 0);
    if run.count == 0 || run.value < lo || hi < run.value {
        return Part::No;
    }
    match char_at(text, run.next, source) {
        Some((b, j)) if b == b',' => Part::Comma(run.value, j),
        Some((_, _)) => Part::No,
        None => Part::Last(run.value),
    }
}

// The same, of at most so many digits, and never more than 15.
pub fn part_at(text: &[u8], at: usize, source: Source, most: u64, lo: u64, hi: u64) -> Part
    ensures { Parted source text.now (min most 15) lo hi at result }
{
    short_part(text, at, source, most.min(15), lo, hi)
}

// The number at `at` up to the end.
#[tactic(auto, using(numbers::proofs::Laws::Alone::standing_alone))]
fn alone(text: &[u8], at: usize, source: Source, most: u64, lo: u64, hi: u64) -> Option<u64>
    requires { most ≤ 15 }
    ensures { result ≡ alone_in most lo hi (stream source text.now at) }
{
    match short_part(text, at, source, most, lo, hi) {
        Part::Last(n) => Some(n),
        Part::Comma(_, _) => None,
        Part::No => None,
    }
}

// The whole number that the value at `at` writes.
pub fn whole_value(text: &[u8], at: usize, lo: u64, hi: u64) -> Option<u64>
    ensures { result ≡ whole_in lo hi (value_there text.now at) }
{
    let quote = *text.get(at)?;
    alone(text, at + 1, Source::Value(quote), 7, lo, hi)
}

// The three lengths that the value at `at` writes.
pub fn three_lengths(text: &[u8], at: usize, width: u64, depth: u64, height: u64) -> Option<Lengths>
    ensures { result ≡ three_in width depth height (value_there text.now at) }
{
    let source = Source::Value(*text.get(at)?);
    let Part::Comma(i, second) = short_part(text, at + 1, source, 7, 1, width) else {
        return None;
    };
    let Part::Comma(j, third) = short_part(text, second, source, 7, 1, depth) else {
        return None;
    };
    let Part::Last(k) = short_part(text, third, source, 7, 1, height) else {
        return None;
    };
    Some(Lengths { i: i, j: j, k: k })
}

// 1 for a dimension from `lo` to `hi`, else 0.
fn is_within(d: u64, lo: u64, hi: u64) -> u64
    ensures { result ≡ cond (between lo hi d) 1 0 }
{
    u64::from(lo <= d && d <= hi)
}

// One digit up to a comma or the end of a value; quick where a digit and a comma stand plain.
fn dimension_at(text: &[u8], at: usize, quote: u8) -> Part
    ensures { Parted (Value quote) text.now 1 0 9 at result }
{
    if 2 <= text.len().saturating_sub(at) && quote < b',' {
        let d = text[at];
        if text[at + 1] == b',' && d.is_ascii_digit() {
            return Part::Comma(u64::from(d - b'0'), at + 2);
        }
    }
    short_part(text, at, Source::Value(quote), 1, 0, 9)
}

// How many of the dimensions that the value at `at` lists are from `lo` to `hi`.
pub fn dimensions_between(text: &[u8], at: usize, lo: u64, hi: u64) -> Option<u64>
    ensures { result ≡ between_in lo hi (value_there text.now at) }
{
    let quote = *text.get(at)?;
    let mut n: u64 = 0;
    let mut i = at + 1;
    loop {
        match dimension_at(text, i, quote) {
            Part::Comma(d, j) => {
                n += is_within(d, lo, hi);
                i = j;
            }
            Part::Last(d) => {
                return Some(n + is_within(d, lo, hi));
            }
            Part::No => {
                return None;
            }
        }
    }
}

// How many dimensions the value at `at` lists.
pub fn dimension_list(text: &[u8], at: usize) -> Option<u64>
    ensures { result ≡ listed_in (value_there text.now at) }
{
    dimensions_between(text, at, 0, 9)
}

// The exponent that the value at `at` writes.
pub fn exponent_value(text: &[u8], at: usize, most: u64) -> Option<i64>
    ensures { result ≡ exponent_in most (value_there text.now at) }
{
    signed_value(text, at, 2, most, most)
}

// The number that the value at `at` writes: at most so many digits, and never more than 15, up to `plus`, or behind a `-` up to `minus`.
pub fn signed_value(text: &[u8], at: usize, most: u64, plus: u64, minus: u64) -> Option<i64>
    ensures { result ≡ signed_in (min most 15) plus minus (value_there text.now at) }
{
    short_value(text, at, most.min(15), plus, minus)
}

fn short_value(text: &[u8], at: usize, most: u64, plus: u64, minus: u64) -> Option<i64>
    requires { most ≤ 15 }
    ensures { result ≡ signed_in most plus minus (value_there text.now at) }
{
    let source = Source::Value(*text.get(at)?);
    match char_at(text, at + 1, source)? {
        (b, j) if b == b'-' => Some(signed(true, alone(text, j, source, most, 0, minus)?)),
        _ => Some(signed(false, alone(text, at + 1, source, most, 0, plus)?)),
    }
}

// The number, with a sign in front.
pub fn signed(negative: bool, n: u64) -> i64
    requires { n < 10 ^ 15 }
    ensures { result ≡ with_sign (sign_if negative) n }
{
    let a = n as i64;
    if negative { -a } else { a }
}
