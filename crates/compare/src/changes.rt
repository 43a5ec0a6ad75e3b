// What changed from one sheet to another, index by index. The theorems on two sheets side by side are in proofs/Laws.
ghost use Rattle.std.specs.Prelude.{◌≡◌, ◌≤◌, length};
ghost use Rattle.compare.specs.Change.{change_at, end_said, first_end};

use super::width::width;

// What is said of an index: nothing, or the word of its line.
#[derive(Clone, Copy)]
pub enum Change {
    Same,
    Moved,
    First,
    Second,
}

// The indices of the first, and behind them those of the second.
pub fn change_at(first: &[u64], second: &[u64], i: usize) -> Change
    ensures { result ≡ change_at first.now second.now i }
{
    if let Some(x) = first.get(i) {
        if second.get(i) == Some(x) {
            Change::Same
        } else if second.contains(x) {
            Change::Moved
        } else {
            Change::First
        }
    } else if let Some(x) = second.get(i - first.len()) {
        if first.contains(x) {
            Change::Same
        } else {
            Change::Second
        }
    } else {
        Change::Same
    }
}

// The head is 4 bytes.
fn end_said(input: &[u8]) -> usize
    requires { 4 ≤ length input.now }
    ensures { result ≡ end_said input.now }
{
    let n = usize::from(input[1]) * 65_536 + usize::from(input[2]) * 256 + usize::from(input[3]);
    4 + width(input) * n
}

// Where the first of two sheets end to end ends, as its own head says, or all of them.
pub fn first_end(input: &[u8]) -> usize
    ensures { (result ≡ first_end input.now) × (result ≤ length input.now) }
{
    if input.len() < 4 {
        input.len()
    } else {
        input.len().min(end_said(input))
    }
}
