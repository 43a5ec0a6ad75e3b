// A decimal in value from 0 to 1, by its amount and its power of ten.
ghost use Rattle.std.specs.Prelude.{◌≡◌, ◌^◌, ◌<◌, pos};
ghost use Rattle.numbers.specs.Answers.{shade};

use number_values::in_value::{places_of, ten_to};

// An amount that is not below 0.
fn shade_above(amount: u64, power: i64) -> bool
    requires { amount < 2 ^ 63 }
    ensures { result ≡ shade (pos amount) power }
{
    if amount == 0 {
        return true;
    }
    if 0 < power {
        return false;
    }
    match places_of(power) {
        Some(k) => amount <= ten_to(k),
        None => true,
    }
}

pub(crate) fn in_shade(amount: i64, power: i64) -> bool
    ensures { result ≡ shade amount power }
{
    if amount < 0 {
        return false;
    }
    shade_above(amount as u64, power)
}
