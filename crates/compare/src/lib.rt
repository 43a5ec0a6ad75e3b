// Two sheets side by side.
#![tactic(auto)]

// The layout of a sheet.
mod width;
// Why two sheets are not compared.
mod refusal;
// How many locations are the same, moved, in the first only and in the second only.
mod counting;
// The questions.
mod answer;
// What changed, index by index; where the first of two sheets end to end ends.
mod changes;

pub use answer::{compare, tail, tail_place};
pub use changes::{Change, change_at, first_end};
