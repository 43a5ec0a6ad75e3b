// Whether keys stand in the table of labels at a place, with no memory lent: the table's keys, as many at a time as there is room for, are
// brought into their order, and each key is searched by halves.
#![tactic(auto)]

// Numbers brought into their order.
mod order;
// A number searched among numbers in order.
mod search;
// Marks by which most numbers that do not stand there are told.
pub mod sieve;
// A row of keys, counted.
mod among;
// The keys of a table, so many at a time.
mod turns;

pub use among::known_among;
pub use search::place_in;
pub use turns::{Turn, taken};
