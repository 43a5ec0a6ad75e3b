// Parts of an answer: kinds and their numbers, a dimension, a refusal.
#![tactic(auto)]

ghost use Rattle.std.specs.Prelude.{◌≡◌, min};
ghost use Rattle.cifti.specs.Maps.{kind_number, kind_place, is_brain, is_series, is_labels};
ghost use Rattle.cifti.specs.declared.answer.Kind.TheVariants as kinds;
ghost use Rattle.cifti.specs.Answer.{no_series, dimension_by, refused_with};
ghost use Rattle.cifti.specs.Answer as answers;
ghost use Rattle.numbers.specs.Numbers.{no_decimal};

use cifti::{Answer, Dimension, Kind, Series};
use numbers::Decimal;
use records::Place;

// What stands where there is no decimal.
pub fn no_decimal() -> Decimal
    ensures { result ≡ no_decimal }
{
    Decimal {
        amount: 0,
        power: 0,
    }
}

// The number of a kind, for callers that pass kinds as numbers; 0: there is no such dimension.
pub fn kind_number(kind: Kind) -> u64
    ensures { result ≡ kind_number kind }
{
    match kind {
        Kind::None => 0,
        Kind::Brain => 1,
        Kind::Series => 2,
        Kind::Scalars => 3,
        Kind::Labels => 4,
    }
}

// The kind that stands at this place of the table of words; None past its end.
pub fn kind_at(place: u64) -> Kind
    ensures { kind_place result ≡ min place (kind_place kinds.None) }
{
    if place == 0 {
        return Kind::Brain;
    }
    if place == 1 {
        return Kind::Series;
    }
    if place == 2 {
        return Kind::Scalars;
    }
    if place == 3 {
        return Kind::Labels;
    }
    Kind::None
}

// A map of models fills a stretch of the records.
pub fn is_brain(kind: Kind) -> bool
    ensures { result ≡ is_brain kind }
{
    kind_number(kind) == 1
}

pub fn is_series(kind: Kind) -> bool
    ensures { result ≡ is_series kind }
{
    kind_number(kind) == 2
}

// A map of labels has a table for each of its names.
pub fn is_labels(kind: Kind) -> bool
    ensures { result ≡ is_labels kind }
{
    kind_number(kind) == 4
}

pub fn no_series() -> Series
    ensures { result ≡ no_series }
{
    let none = crate::no_decimal();
    Series {
        start: none,
        step: none,
        exponent: 0,
        unit: 0,
    }
}

// What is said of a dimension, whatever its kind.
pub fn dimension_by(kind: Kind, length: u64, start: Place, series: Series) -> Dimension
    ensures { result ≡ dimension_by kind length start.0 series }
{
    Dimension {
        kind: kind,
        length: length,
        start: start,
        series: series,
    }
}

pub fn unused() -> Dimension
    ensures { result ≡ answers.unused }
{
    dimension_by(Kind::None, 0, Place(0), no_series())
}

pub fn refused(number: u64) -> Answer
    ensures { result ≡ refused_with number }
{
    let none = unused();
    Answer {
        number: number,
        dimensions: [none; 3],
    }
}
