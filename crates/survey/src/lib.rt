// Conditions 1 to 9, and the maps of a text that passes them. The laws of 8 and 9 are in `maps`.
// 8.
#![tactic(auto)]

mod listed_once;
// 9.
mod lengths_agree;
// 1 to 9 in their order.
mod header;

pub use header::{Survey, surveyed};
