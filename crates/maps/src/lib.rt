// What a header that passes 1 to 7 is known to hold, the laws of conditions 8 and 9 that `survey` is proved by; and what all rooms share.
// The paper's limits.
#![tactic(auto)]

pub mod limits;
// An attribute's word or number.
pub mod fields;
// How often a map lists each dimension.
pub mod dims;
// What is noted of each map, by value.
pub mod survey;
