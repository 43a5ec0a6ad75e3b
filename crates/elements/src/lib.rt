// Walking the elements of a text: over a tag, over an element, to the first child and the next.
#![tactic(auto)]

// Passing over what is known to be well formed.
pub mod scan;
// The root, the first child, the next.
pub mod children;
// The next child, or the end of the parent with the place behind it.
pub mod ahead;
