// The questions on two sheets.
ghost use Rattle.std.specs.Prelude.{◌≡◌, ◌≤◌, length};
ghost use Rattle.comparison.specs.Compare.{record_place, placed, Compares, TailPlaced, Tails};

use super::counting::counted;
use super::refusal::accepted;
use super::width::width;
use comparison::{Compared, TailPlace};
use matching::Sheet;
use records::Place;
use repeats::clear;

// How many locations are at the same index in both sheets, in both but moved, in the first only and in the second only.
pub fn compare(first: &[u8], second: &[u8], work: &mut [u64]) -> Compared
    ensures { Compares first.now second.now work.old result work.new }
{
    let answer = counted(first, second, work);
    clear(work);
    match answer {
        Ok(compared) => compared,
        Err(refusal) => Compared {
            number: refusal.number(),
            same: 0,
            moved: 0,
            first: 0,
            second: 0,
        },
    }
}

// Where the sheet's record at the place begins.
fn record_start(sheet: Sheet, place: Place) -> usize
    requires { place.0 ≤ sheet.count }
    ensures is { result ≡ record_place place.0 sheet.entry.bytes.now }
    ensures within { result ≤ length sheet.entry.bytes.now }
{
    4 + width(sheet.bytes) * place.0
}

// Of the longer sheet, the records that the shorter has no place for.
fn longer_part(first: Sheet, second: Sheet) -> TailPlace
    ensures { result ≡ placed 0 first.entry.bytes.now second.entry.bytes.now }
{
    if first.count < second.count {
        let start = record_start(second, Place(first.count));
        TailPlace {
            number: 0,
            sheet: 1,
            start,
            length: second.bytes.len() - start,
        }
    } else {
        let start = record_start(first, Place(second.count));
        TailPlace {
            number: 0,
            sheet: 0,
            start,
            length: first.bytes.len() - start,
        }
    }
}

// Which sheet is longer, and where its records begin that the shorter has no place for.
pub fn tail_place(first: &[u8], second: &[u8], work: &mut [u64]) -> TailPlace
    ensures { TailPlaced first.now second.now work.old result work.new }
{
    let answer = accepted(first, second, work);
    clear(work);
    match answer {
        Ok((one, two)) => longer_part(one, two),
        Err(refusal) => TailPlace {
            number: refusal.number(),
            sheet: 0,
            start: 0,
            length: 0,
        },
    }
}

// Those records, in the longer's width.
pub fn tail<'a>(first: &'a [u8], second: &'a [u8], work: &mut [u64]) -> &'a [u8]
    ensures { Tails first.now second.now work.old result.now work.new }
{
    let part = tail_place(first, second, work);
    let sheet = if part.sheet == 1 { second } else { first };
    &sheet[part.start..part.start + part.length]
}
