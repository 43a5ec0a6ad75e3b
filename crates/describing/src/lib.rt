// What the answer says of the maps, and condition 13.
#![tactic(auto)]

// The places that each map takes, and 13.
mod room;
// What a series map says.
mod series;
// What the answer says of each dimension.
mod said;

pub use room::room_short;
pub use said::accepted;
