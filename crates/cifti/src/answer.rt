// The answer of the reader, by value.
use numbers::Decimal;
use records::Place;

// What a matrix dimension is; None: there is no such dimension, or the answer is a refusal.
#[derive(Clone, Copy)]
pub enum Kind {
    None,
    Brain,
    Series,
    Scalars,
    Labels,
}

// All zero where the dimension is no series. The unit: 0 second, 1 hertz, 2 meter, 3 radian.
#[derive(Clone, Copy)]
pub struct Series {
    pub start: Decimal,
    pub step: Decimal,
    pub exponent: i64,
    pub unit: u64,
}

// The stretch of a brain map begins at `start`; it is 0 for other kinds.
#[derive(Clone, Copy)]
pub struct Dimension {
    pub kind: Kind,
    pub length: u64,
    pub start: Place,
    pub series: Series,
}

// The number of the refusal, or 0; a refused answer is zero but for its number.
#[derive(Clone, Copy)]
pub struct Answer {
    pub number: u64,
    pub dimensions: [Dimension; 3],
}
