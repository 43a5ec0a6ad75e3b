// Sheets: records packed into bytes, and unpacked.
#![tactic(auto)]

// The words of a sheet of either layout.
mod word;
// Packing and unpacking.
mod sheet;

pub use sheet::{pack, unpack};
pub use word::record_at;
