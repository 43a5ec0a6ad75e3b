// Where what begins at a place of a text ends: what the readers of bytes answer; and that a text says what it says with its line ends
// translated first. Definitions, laws and types; no functions.
#![tactic(auto)]

// A name with its `=`, where it begins and ends.
pub mod attributes;
// What stands at the front of contents.
pub mod pieces;
// How a start tag ends.
pub mod tags;
