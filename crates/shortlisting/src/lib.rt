// The short list of models beside the records of one brain map: made and asked, entry by entry by value, and as a lent list.
#![tactic(auto)]

// The kind of a record; a number of no more bits than a record has.
mod kinds;
// The runs of records, in an array.
mod runs;
// A list taken entry by entry, and what is answered at its end.
mod search;
// The entries of a lent list, read in turn.
mod entries;
// The three doors.
mod doors;

pub use doors::{index_of, model_list, structure_at};
pub use runs::made_of;
pub use search::{begin, begin_record, next, sought, told};
