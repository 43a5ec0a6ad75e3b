// The reader of a NIfTI-2 file: its front, and then what `reader` answers of the text inside it.
// The lengths that are handed on.
#![tactic(auto)]

mod given;
// The table.
mod reading;
// The name of a map.
mod names;

pub use names::{file_map_name, file_map_name_number, file_map_name_place};
pub use reading::read_file;
