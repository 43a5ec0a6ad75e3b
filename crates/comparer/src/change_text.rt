// The bytes of a line of the comparer.
ghost use Rattle.std.specs.Prelude.{◌++◌, ◌≤◌, length};
ghost use Rattle.card.specs.Card.{record_line};
ghost use Rattle.card.specs.Written.{line_bytes, IsPrefixLen, Spells, WritesOut};
ghost use Rattle.comparer.specs.Output.{change_bytes, line_at};

use card::record_line;
use compare::Change;
use records::Index;

// A word, and the line of a record behind it.
fn spell_behind(word: &[u8], index: Index, r: u64, out: &mut [u8]) -> usize
    requires { (length word.now ≤ 20) × (128 ≤ length out.old) }
    ensures { Spells (word.now ++ line_bytes (record_line index.0 r)) result out.new }
{
    let at = word.len();
    out[..at].copy_from_slice(word);
    at + card::write_line(record_line(index, r), &mut out[at..])
}

// Every line fits 128 bytes.
fn spell(change: Change, index: Index, r: u64, out: &mut [u8]) -> usize
    requires { 128 ≤ length out.old }
    ensures { Spells (change_bytes change index.0 r) result out.new }
{
    match change {
        Change::Same => 0,
        Change::Moved => spell_behind(b"moved ", index, r, out),
        Change::First => spell_behind(b"first ", index, r, out),
        Change::Second => spell_behind(b"second ", index, r, out),
    }
}

// The line of the n-th index: those of the first, and behind them those of the second, which are counted from 0 again.
fn spell_at(first: &[u64], second: &[u64], n: usize, out: &mut [u8]) -> usize
    requires { 128 ≤ length out.old }
    ensures { Spells (line_at first.now second.now n) result out.new }
{
    let change = compare::change_at(first, second, n);
    if n < first.len() {
        return spell(change, Index(n as u64), first[n], out);
    }
    let j = n - first.len();
    if second.len() <= j {
        return 0;
    }
    spell(change, Index(j as u64), second[j], out)
}

// That line goes to the start of the bytes lent; answers how many, 0 where they are too few or nothing is said.
pub fn write_change(first: &[u64], second: &[u64], n: usize, out: &mut [u8]) -> usize
    ensures writes_out { WritesOut (line_at first.now second.now n) out.old result out.new }
    ensures prefix_len { IsPrefixLen result out.new }
{
    let mut space = [0u8; 128];
    let size = spell_at(first, second, n, &mut space);
    if out.len() < size {
        return 0;
    }
    out[..size].copy_from_slice(&space[..size]);
    size
}
