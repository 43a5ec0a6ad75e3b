// The elements of a text, as positions: the layers above walk them and never see a byte of markup. Definitions, laws and types; no
// functions.
#![tactic(auto)]

// A step over the text of an element: a decoded byte, what is passed over, or the end.
// `Stop` is a variant, and no None: the crates above are handed this type, and match all three together.
#[derive(Clone, Copy)]
pub enum Text {
    Letter(u8, usize),
    Skip(usize),
    Stop,
}

// What passing over a text meets.
pub mod scan;
// The next child, or the end of its parent.
pub mod ahead;
