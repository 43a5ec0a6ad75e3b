// What stands at the front of contents.
#[derive(Clone, Copy)]
pub enum Front {
    Close,
    Comment,
    Data,
    Start,
    Text,
}

// Where characters, comments and CDATA end: before an end tag or the end of the text, before a start tag, or nowhere.
#[derive(Clone, Copy)]
pub enum Between {
    Close(usize),
    Start(usize),
    Bad,
}
