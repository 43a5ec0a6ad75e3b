// Where a name begins and ends, and where what is read with it ends.
#[derive(Clone, Copy)]
pub struct Key {
    pub from: usize,
    pub to: usize,
    pub end: usize,
}
