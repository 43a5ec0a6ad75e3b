// Conditions 10, 11 and 12: the models of the brain maps. The laws are in `models`.
// A model's structure by its word.
#![tactic(auto)]

mod structures;
// A model's type and structure in one number.
mod kind;
// The models of a map, gathered in one walk: 10.
mod gather;
// Whether their ranges tile: 11.
mod ranges;
// The sizes of the map's volume.
mod sizes;
// The lists of all models of a map: 11 and 12, and 14 where their locations are seen to be apart.
mod verdict;
// All maps.
mod judge;

pub use judge::judged;
