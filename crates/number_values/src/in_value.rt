// A decimal beside 0 and 1, in value: the tests of the last row.
ghost use Rattle.std.specs.Prelude.{◌≡◌, ◌^◌, ◌≤◌};
ghost use Rattle.numbers.specs.Numbers.{in_value, is_whole};
ghost use Rattle.numbers.specs.Answers.{places_in};
ghost use Rattle.numbers.specs.Sixteen.{right_at};

use numbers::Decimal;

// The amount is the whole number `n`.
fn amount_is(a: i64, n: u64) -> bool
    ensures { result ≡ is_whole n a }
{
    if a < 0 {
        return false;
    }
    a as u64 == n
}

// A power from -18 to 0, without its sign.
pub fn places_of(power: i64) -> Option<u64>
    ensures { result ≡ places_in power }
{
    if 0 < power {
        return None;
    }
    if power < -18 {
        return None;
    }
    Some(power.unsigned_abs())
}

// 10 to the power of `places`.
pub fn ten_to(places: u64) -> u64
    requires { places ≤ 18 }
    ensures { result ≡ 10 ^ places }
{
    10u64.pow(places as u32)
}

// The decimal is equal in value to 1.
fn is_one(d: Decimal) -> bool
    ensures { result ≡ in_value is_whole 1 d }
{
    match places_of(d.power) {
        Some(k) => amount_is(d.amount, ten_to(k)),
        None => false,
    }
}

// The decimal is right where so many of the sixteen are still to come.
pub(crate) fn right_at(left: u64, d: Decimal) -> bool
    ensures { result ≡ right_at left d }
{
    match left {
        0 => is_one(d),
        1..=3 => amount_is(d.amount, 0),
        _ => true,
    }
}
