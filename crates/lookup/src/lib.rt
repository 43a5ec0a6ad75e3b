// What a lent table says, found by number or by name: its numbers and words, and the lines of children. Any table will do.
// The numbers of the table, its words, and the entry of a name.
#![tactic(auto)]

pub mod table;
// The number of a word among those of a form.
pub mod words;
// The kind of a child, by its parent's lines.
pub mod lines;
