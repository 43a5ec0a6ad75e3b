// The keys of one array of a GIFTI label file. 2, 3, 4, 6, 29 and 7 are the opening's; then 9, 24, 18, 30, 31 and 17.
#![tactic(auto)]

// 9, 24, 18, 30 and 31.
mod number;
// 17, and the keys.
mod lent_keys;

pub use lent_keys::gifti_keys;
