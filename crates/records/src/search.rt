// The first place of a record, and whether there is one.
use super::counters::Place;

// 0 and the place, or 19 and place 0.
#[derive(Clone, Copy)]
pub struct RecordFound {
    pub number: u64,
    pub place: Place,
}
