// Conditions 24 and 25 of the labels maps, where 1 to 9 do not apply.
// 24: a key twice in one table.
#![tactic(auto)]

mod twice;
// 25: the labels maps together list more than one dimension.
mod dimensions;

pub use dimensions::labels_twice;
pub use twice::key_twice;
