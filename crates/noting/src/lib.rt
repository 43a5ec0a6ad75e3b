// The maps of a matrix that passes 1 to 7, each noted once. The laws are in `maps`.
// The kind of a map, and the children that it counts.
#![tactic(auto)]

mod kind;
// The dimensions that a map lists.
mod digits;
// The length of a map, its Volume, and where it ends.
mod sums;
// The maps, each noted.
mod survey;

pub use survey::{maps_of, no_maps};
