// What a series map says.
ghost use Rattle.std.specs.Prelude.{◌≡◌};
ghost use Rattle.grammar.specs.Look.{attr};
ghost use Rattle.nodes.specs.Places.{Stands, the};
ghost use Rattle.cifti.specs.Words.{units, number_in};
ghost use Rattle.maps.specs.Fields.{attribute_word};
ghost use Rattle.describing.specs.Series.{decimal_seen, exponent_seen, series_said, SeriesAt};

use answers::no_decimal;
use cifti::Series;
use number_values::{decimal_value, exponent_value};
use numbers::Decimal;

// The attribute's decimal, zero where there is none.
fn decimal_seen(text: &[u8], at: usize, name: &[u8]) -> Decimal
    requires { Stands text.now at }
    ensures { result ≡ decimal_seen (attribute_word name.now (the text.now at)) }
{
    match inside::attributes::attribute(text, at, name) {
        Some(v) => match decimal_value(text, v) {
            Some(d) => d,
            None => no_decimal(),
        },
        None => no_decimal(),
    }
}

// The attribute's exponent from -30 to 30, zero where there is none.
fn exponent_seen(text: &[u8], at: usize, name: &[u8]) -> i64
    requires { Stands text.now at }
    ensures { result ≡ exponent_seen (attribute_word name.now (the text.now at)) }
{
    match inside::attributes::attribute(text, at, name) {
        Some(v) => match exponent_value(text, v, 30) {
            Some(n) => n,
            None => 0,
        },
        None => 0,
    }
}

// The number of the map's unit; 4 where it names none.
fn unit_number(text: &[u8], at: usize) -> u64
    requires { Stands text.now at }
    ensures { result ≡ number_in units (attr "SeriesUnit" (the text.now at)) }
{
    match inside::attributes::attribute(text, at, b"SeriesUnit") {
        Some(v) => vocabulary::unit_named(text, v),
        None => 4,
    }
}

pub(crate) fn series_at(text: &[u8], at: usize) -> Series
    requires { SeriesAt text.now at }
    ensures { result ≡ series_said (the text.now at) }
{
    Series {
        start: decimal_seen(text, at, b"SeriesStart"),
        step: decimal_seen(text, at, b"SeriesStep"),
        exponent: exponent_seen(text, at, b"SeriesExponent"),
        unit: unit_number(text, at),
    }
}
