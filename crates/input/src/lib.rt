// What the programs take from standard input.
#![tactic(auto)]

// Bytes, until there is no more room or no more input.
mod came;
// Bytes, and one more.
mod past;
// A line.
mod line;
// The lengths that the lister's first line writes.
mod lengths;

pub use came::{Came, read_bytes};
pub use lengths::{FirstLine, first_line};
pub use line::read_line;
pub use past::read_past;
