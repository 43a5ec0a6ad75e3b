// The arrays of a GIFTI label file: their keys, counted against the table of labels, and written.
#![tactic(auto)]

// The keys of an array, counted and written.
mod tally;
// One array.
mod array;
// All arrays.
mod arrays;
// All arrays against the table.
mod search;

pub use array::{ArrayNote, noted};
pub use arrays::{Told, arrays_told};
pub use search::searched;
pub use tally::fill;
