// The front of a NIfTI-2 file: its lengths, and the part of its bytes that is the header text; or the number of its refusal.
// Theorems on fronts that no code needs are in proofs/Laws.
#![tactic(auto)]

// Numbers of four and eight bytes, in either order.
mod fields;
// The header by its fields: the order, 20 and 21, the lengths.
mod header;
// The list of extensions: 22 and 23.
mod list;
// The front, and its part.
mod whole;

pub use whole::{front, part};
