// Answers as numbers at the start of a lent slice; one that is too short is left as it was.
ghost use Rattle.std.specs.Prelude.{◌≡◌, [], ◌∷◌, ◌+◌, ◌≤◌, length, cond, leb};
ghost use Rattle.records.specs.Fill.{wrote};
ghost use Rattle.flat.specs.Flat as flat;

use answers::kind_number;
use cifti::{Answer, Dimension};

// Where each number of a dimension stands; the places behind them are 0.
const KIND: usize = 0;

const LENGTH: usize = 1;

const START: usize = 2;

const START_AMOUNT: usize = 3;

const START_POWER: usize = 4;

const STEP_AMOUNT: usize = 5;

const STEP_POWER: usize = 6;

const EXPONENT: usize = 7;

const UNIT: usize = 8;

// Where each dimension begins behind the head, and how many numbers there are in all.
const FIRST: usize = 4;

const SECOND: usize = 20;

const THIRD: usize = 36;

const ANSWER: usize = 52;

// Two's complement.
fn complement(x: i64) -> u64
    ensures { result ≡ flat.complement x }
{
    if x < 0 {
        return 18_446_744_073_709_551_615 - (-1 - x) as u64;
    }
    x as u64
}

fn dimension_numbers(dimension: Dimension) -> [u64; 16]
    ensures { result ≡ flat.dimension_numbers dimension }
{
    let kind = dimension.kind;
    let place = dimension.start;
    let series = dimension.series;
    let start = series.start;
    let step = series.step;
    let mut row = [0u64; 16];
    row[KIND] = kind_number(kind);
    row[LENGTH] = dimension.length;
    row[START] = place.0 as u64;
    row[START_AMOUNT] = complement(start.amount);
    row[START_POWER] = complement(start.power);
    row[STEP_AMOUNT] = complement(step.amount);
    row[STEP_POWER] = complement(step.power);
    row[EXPONENT] = complement(series.exponent);
    row[UNIT] = series.unit;
    row
}

// Numbers from a place on, where the slice has room for them; else it stays as it is.
pub fn put(slice: &mut [u64], at: usize, row: &[u64])
    ensures { slice.new ≡ cond (leb (at + length row.now) (length slice.old)) (wrote at row.now slice.old) slice.old }
{
    if slice.len() < row.len() || slice.len() - row.len() < at {
        return;
    }
    stored(slice, at, row);
}

fn stored(slice: &mut [u64], at: usize, row: &[u64])
    requires { at + length row.now ≤ length slice.old }
    ensures { slice.new ≡ wrote at row.now slice.old }
{
    for i in 0..row.len() {
        slice[at + i] = row[i];
    }
}

pub fn tell_answer(slice: &mut [u64], answer: Answer)
    ensures { slice.new ≡ flat.laid_over (flat.answer_numbers answer) slice.old }
{
    if slice.len() < ANSWER {
        return;
    }
    let dimensions = answer.dimensions;
    let mut head = [0u64; 4];
    head[0] = answer.number;
    let first = dimension_numbers(dimensions[0]);
    let second = dimension_numbers(dimensions[1]);
    let third = dimension_numbers(dimensions[2]);
    stored(slice, 0, &head);
    stored(slice, FIRST, &first);
    stored(slice, SECOND, &second);
    stored(slice, THIRD, &third);
}

pub fn tell_one(slice: &mut [u64], value: u64)
    ensures { slice.new ≡ flat.laid_over (value ∷ []) slice.old }
{
    if 0 < slice.len() {
        slice[0] = value;
    }
}

pub fn tell_two(slice: &mut [u64], first: u64, second: u64)
    ensures { slice.new ≡ flat.laid_over (first ∷ second ∷ []) slice.old }
{
    if slice.len() < 2 {
        return;
    }
    slice[0] = first;
    slice[1] = second;
}

pub fn tell_row(slice: &mut [u64], row: &[u64])
    ensures { slice.new ≡ flat.laid_over row.now slice.old }
{
    if slice.len() < row.len() {
        return;
    }
    stored(slice, 0, row);
}
