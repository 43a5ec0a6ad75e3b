// The laws of conditions 10, 11 and 12 that `judging` is proved by; and what `judging` and `filling` share.
// The models of a brain map, by value.
#![tactic(auto)]

pub mod gather;
// The sizes of a volume.
pub mod volume;
// Where the list of a model begins, and its voxels.
pub mod listing;
// What is judged of the maps, with the models of each.
pub mod judge;
