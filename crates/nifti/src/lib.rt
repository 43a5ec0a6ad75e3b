// The front of a NIfTI-2 file: what is read of it, and what is answered. Definitions, laws and types; no functions.
#![tactic(auto)]

// The order of the bytes of every number: the most significant first, or the least.
#[derive(Clone, Copy, PartialEq, Eq, Debug)]
pub enum Order {
    MostFirst,
    LeastFirst,
}

// Why a file is refused, by the number of the refusal.
#[derive(Clone, Copy, PartialEq, Eq, Debug)]
pub enum Refusal {
    NoFront = 20,
    NoMatrix = 21,
    NoList = 22,
    NoText = 23,
}

// The number of the refusal, or 0, and then how many lengths there are, the lengths in the header's order, and where the part that is the
// header text starts in the file, and its length.
#[derive(Clone, Copy)]
pub struct Front {
    pub number: u64,
    pub count: u64,
    pub lengths: [u64; 3],
    pub start: usize,
    pub length: usize,
}

// What a walk over the list of extensions takes: where the body of the first of code 32 starts in the file, and its length.
#[derive(Clone, Copy)]
pub struct Taken {
    pub start: usize,
    pub length: usize,
}
