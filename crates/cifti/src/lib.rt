// The CIFTI-2 rules, and the answer of the reader. Definitions, laws and types; no functions.
#![tactic(auto)]

// The answer, by value.
mod answer;

pub use answer::{Answer, Dimension, Kind, Series};
pub use numbers::Decimal;
