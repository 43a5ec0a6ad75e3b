// How a start tag ends: the contents begin there, the element is empty and ends there, or no tag stands there.
#[derive(Clone, Copy)]
pub enum Opened {
    Full(usize),
    Empty(usize),
    Bad,
}
