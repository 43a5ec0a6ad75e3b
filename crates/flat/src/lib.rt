// Answers as plain numbers, for callers that are not Rattle: one, two, a row, or those of a whole answer, in a lent slice.
#![tactic(auto)]

mod slices;

pub use slices::{put, tell_answer, tell_one, tell_row, tell_two};
