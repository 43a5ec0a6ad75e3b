// The labels of a header text: the keys of one table, and the name of a key. 1 to 9, 24, 25 and 18, then 17 or 19.
// 1 to 9, 24 and 25 in their order.
#![tactic(auto)]

mod before;
// The keys of a table, in a lent slice.
mod lent_keys;
// The name of a key, and where it stands in the text.
mod names;

pub use label_table::Filled;
pub use lent_keys::label_keys;
pub use names::{label_name, label_name_number, label_place};
