// A start tag that leaves its element open, or one that does not; and the place behind it.
#[derive(Clone, Copy)]
pub enum Tag {
    Open(usize),
    Bare(usize),
}

// The next that matters in contents: an end tag and its place; behind a start tag; behind a comment or a bare tag.
#[derive(Clone, Copy)]
pub enum Sign {
    Close(usize),
    Open(usize),
    Flat(usize),
}
