// Conditions 11, 12 and 14 of a map's lists in one reading: each location is marked in the work space. Where a place was marked before, or
// there is none for it, 14 is not decided. The laws of marks are in `marks`, those of 11 and 12 in `models`.
// Where each location is marked.
#![tactic(auto)]

pub mod places;
// The list of one model.
pub mod listing;
// The lists of all models of a map.
mod models_read;

pub use models_read::marked_lists;
