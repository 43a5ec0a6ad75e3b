// What the element at a place says: its name, its attributes, their decoded values, its text; and ways to an element.
#![tactic(auto)]

// Whether the element has a name.
pub mod names;
// Where the value of an attribute begins.
pub mod attributes;
// A value, decoded byte by byte.
pub mod values;
// The text of an element: where it begins, decoded byte by byte, and as it is written.
pub mod texts;
// Ways to an element: the n-th child of a name, and behind a start tag.
pub mod ways;
