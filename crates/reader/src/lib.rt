// The reader: the header text in, the brain location of every matrix index out, or the one right refusal.
// 10 to 14, 24 and 25 in their order.
#![tactic(auto)]

mod later;
// The table: 1 to 14, 24 and 25, then the records and the answer.
mod reading;
// The name of a map: 1 to 9, then 18.
mod names;

pub use names::{map_name, map_name_number, map_name_place};
pub use reading::read;
