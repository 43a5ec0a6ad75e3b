// The table of labels at a place: its keys in order, the label of a key; and keys as numbers that are not below 0, in the same order.
#![tactic(auto)]

// The labels of a table, one after the other, and the key of each.
pub mod labels;
// The keys, counted and written into a lent slice; the label of a key.
mod listed;
// The number of a key, and of that of a Label.
pub mod codes;

pub use listed::{Filled, fill_keys, key_count, label_with};
