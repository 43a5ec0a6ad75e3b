// What it is for an element to be as rows say; and rows as a lent table of numbers and letters, with what a walk over a document by such
// a table says. Definitions and theorems, and the types that the walk passes on; no functions.
#![tactic(auto)]

// How often each line of a kind was met so far, and the place of the line met last; whether the watched name was seen, and whether it
// was met below a child.
#[derive(Clone, Copy)]
pub struct Tally {
    pub counts: [u64; 8],
    pub place: usize,
    pub seen: bool,
    pub met: bool,
}

// The fault of an element and, where it is not 6, the place behind the element, and whether the watched name stands below it.
#[derive(Clone, Copy)]
pub struct Walked {
    pub fault: u8,
    pub behind: usize,
    pub holds: bool,
}

// 3: no document; 6: its shape is wrong; 7: its numbers are; 0. Where it is not 3, the root stands at `root`.
#[derive(Clone, Copy)]
pub struct Checked {
    pub number: u8,
    pub root: usize,
}
