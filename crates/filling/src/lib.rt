// The records of the brain maps: condition 14, and the table. The laws are in `table`.
// The records of one list.
#![tactic(auto)]

mod listing;
// Of one model.
mod model;
// Of all models of a map.
mod placing;
// 14, by the keys of a map's records in the work space.
mod twice;
// The stretches of all maps.
mod stretches;

pub use stretches::fill_all;
pub use twice::any_twice;
