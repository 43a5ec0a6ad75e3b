// A child; the end of the element, and the place behind it; or what may not stand there.
// `Stray` is a variant, and no None: the crates above are handed this type, and match all three together.
#[derive(Clone, Copy)]
pub enum Ahead {
    Child(usize),
    End(usize),
    Stray,
}
