// Numbers in words and in texts: what each form means, and what its reader answers. Definitions, laws and types; no functions.
#![tactic(auto)]

// Three lengths.
#[derive(Clone, Copy)]
pub struct Lengths {
    pub i: u64,
    pub j: u64,
    pub k: u64,
}

// A decimal as it is written: its digits with the sign, and one power of ten, the written one less the places. 2.0 is 20 with power -1.
#[derive(Clone, Copy)]
pub struct Decimal {
    pub amount: i64,
    pub power: i64,
}

// The number that stands next in a list, and the place behind it. Three cases by name: of two Options one `None` would be the end.
#[derive(Clone, Copy)]
pub enum Next {
    Number(u64, usize),
    End,
    Bad,
}

// Where characters come from: a value in a quote, or the text of an element.
#[derive(Clone, Copy)]
pub enum Source {
    Value(u8),
    Contents,
}

// Digits in a row: what they write, how many they are, the place behind them.
#[derive(Clone, Copy)]
pub struct Run {
    pub value: u64,
    pub count: u64,
    pub next: usize,
}

// Whether a `-` stands in front, and the place behind the sign, if there is one.
#[derive(Clone, Copy)]
pub struct Lead {
    pub negative: bool,
    pub next: usize,
}

// A number among commas: with the place behind its comma, or the last. Named cases are plainer than `Option<(u64, Option<usize>)>`.
#[derive(Clone, Copy)]
pub enum Part {
    Comma(u64, usize),
    Last(u64),
    No,
}
