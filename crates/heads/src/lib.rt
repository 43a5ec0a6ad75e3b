// The readers up to the head of a tag: each takes a text and a position in it, and tells where the thing that begins there ends.
#![tactic(auto)]

// Characters and references.
pub use letters::characters;
// Comments.
pub mod comments;
// CDATA.
pub mod data;
// Values in quotes.
pub mod values;
// Attributes, and the head of a tag.
pub mod attributes;
