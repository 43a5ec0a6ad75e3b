// Two sheets side by side: what is answered. Definitions, laws and types; no functions.
#![tactic(auto)]

// Both answers are public and C is given their parts, so the number stands beside them and is no Result.

// The number of the refusal, or 0; and then how many locations are at the same index in both, in both but moved, in the first only, and in
// the second only. All 0 where refused.
#[derive(Clone, Copy)]
pub struct Compared {
    pub number: u64,
    pub same: usize,
    pub moved: usize,
    pub first: usize,
    pub second: usize,
}

// The number of the refusal, or 0; which sheet the part is of, 0 the first and 1 the second, where it starts there, and how many bytes it
// has. All 0 where refused.
#[derive(Clone, Copy)]
pub struct TailPlace {
    pub number: u64,
    pub sheet: u64,
    pub start: usize,
    pub length: usize,
}
