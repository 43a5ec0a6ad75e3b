// Three counters that are kept apart: one given for another does not compile.

// A position along one matrix dimension.
#[derive(Clone, Copy)]
pub struct Index(pub u64);

// The number of a vertex on its surface.
#[derive(Clone, Copy)]
pub struct Vertex(pub u64);

// A place in the lent table of records.
#[derive(Clone, Copy)]
pub struct Place(pub usize);
