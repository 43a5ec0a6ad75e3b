// Whether two records name the same place.
#![tactic(auto)]

// The repeat check, a work space of zeros, and a list halved by value.
mod repeat;

pub use repeat::{clear, halve, repeats_in, twice};
