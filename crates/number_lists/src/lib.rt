// Numbers in a row: decoded characters, digits and blanks, and the next number of a list.
#![tactic(auto)]

// Decoded bytes, from a value or from a text.
pub mod chars;
// The next number of a list.
mod listed;
// The next number of a list where plain bytes write it.
mod quick;
// The next number of a list inside CDATA.
mod within;

pub use listed::any_number;
pub use quick::{next_number, quick_number};
