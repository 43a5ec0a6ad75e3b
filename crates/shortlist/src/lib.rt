// A short list of models beside the records of one brain map: what it is, what is answered of it, and what the code passes on by value.
// Definitions, laws and types, and the number of each fault.
#![tactic(auto)]

// A model of the list, and what is answered.
mod answer;
// Runs in an array, and what has been seen of a list.
mod state;

pub use answer::{ListFault, Model, SearchFault, Told};
pub use state::{Made, Search};
