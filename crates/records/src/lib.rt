// Records of locations: the three counters, and what is answered of records, sheets and repeats. Definitions, laws and types; no functions.
#![tactic(auto)]

// An index, a vertex and a place, which are told apart.
mod counters;
// The paper's number and a count.
mod outcome;
// The first place of a record, and whether there is one.
mod search;
// The least and the greatest number of a part.
pub mod repeat;

pub use counters::{Index, Place, Vertex};
pub use outcome::Outcome;
pub use search::RecordFound;
