// The morning card: which lines are printed, how many, and the bytes of each.
#![tactic(auto)]

// Each line of the card, by its number.
mod line;
// How many lines there are.
mod count;
// The bytes of a line.
mod write;

pub use count::line_count;
pub use line::{Line, line_at, record_line};
pub use write::write_line;
