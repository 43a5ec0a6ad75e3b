// Conditions 1 to 7, in the paper's order.
// The order, with 1 and 2; 3, 6 and 7 are the vocabulary's.
#![tactic(auto)]

mod header;
// 4.
mod root;
// 5, where 6 or 7 applies.
mod unread;

pub use header::{Opening, opened};
