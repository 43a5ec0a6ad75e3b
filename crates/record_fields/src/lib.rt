// A record made and taken apart, its legality, its key; the first place of a record.
#![tactic(auto)]

// The 54 bits of a record.
mod record;
// The 40 bits of a record in a sheet of five.
mod five;
// The first place of a record.
mod search;

pub use five::{legal_five, widen};
pub use record::{
    i_of, is_voxel, j_of, k_of, key, legal, structure_of, surface_record, vertex_of, voxel_record,
};
pub use search::find;
