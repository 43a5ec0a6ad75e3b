// Runs in an array, and what has been seen of a list.
use super::answer::{Model, Told};
use records::Index;

// The runs of records, at most one of each type and structure: how many there are, and they themselves, in order.
#[derive(Clone, Copy)]
pub struct Made {
    pub count: usize,
    pub models: [Model; 64],
}

// What has been seen of a list that is not bad, entry by entry.
#[derive(Clone, Copy)]
pub struct Search {
    // what is asked: an index, a kind, and how many records there are
    pub index: Index,
    pub kind: u64,
    pub most: u64,
    // the entry before: where it begins, and its count
    pub first: u64,
    pub count: u64,
    // the kinds that have been named, a bit each
    pub named: u64,
    // what the entry that holds the index tells
    pub tells: Option<Told>,
    // where the entry of the kind begins, and its count; 0 and 0 where there is none
    pub from: u64,
    pub size: u64,
}
