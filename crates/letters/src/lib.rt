// The smallest readers: classes of bytes, blanks and marks, names, characters; and blocks of sixteen bytes.
#![tactic(auto)]

// What a byte may be.
pub mod classes;
// Blanks, and fixed marks.
pub mod blanks;
// Names, and whether two are equal.
pub mod names;
// Characters of one to four bytes, and references to them.
pub mod characters;
// Sixteen bytes at once: whether they lack a byte, and how far plain bytes go.
pub mod blocks;
