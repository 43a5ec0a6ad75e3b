// How often the lines of a kind are met.
ghost use Rattle.std.specs.Prelude.{◌≡◌};
ghost use Rattle.nodes.specs.Places.{the};
ghost use Rattle.schema.specs.Tallied.{here_one, watched_name, stands_by, times_by, Counts, Meets};
ghost use Rattle.schema.specs.Asked.{Here, Timed, Counting, Tallying};

use letters::names::equal;
use lookup::{lines, table};
use schema::Tally;

// 1 where the name, which is that of `line`, is that of line i.
#[tactic(auto, using(schema::proofs::Laws::Times::hereabout))]
fn here(name: &[u8], table: &[u32], letters: &[u8], line: usize, i: usize) -> u64
    requires { Here table.now letters.now name.now line i }
    ensures { result ≡ here_one table.now letters.now i name.now }
{
    if i == line {
        return 1;
    }
    let w = table::line_cell(table, i, 0);
    if equal(name, table::word(table, letters, w)) {
        1
    } else {
        0
    }
}

fn is_watched(name: &[u8], table: &[u32], letters: &[u8]) -> bool
    ensures { result ≡ watched_name table.now letters.now name.now }
{
    let w = table::cell(table, 7);
    equal(name, table::word(table, letters, w))
}

// One more child, of this name, of which `line` is the first with the name.
#[tactic(auto, using(schema::proofs::Laws::Times::raising))]
fn counted(
    name: &[u8],
    table: &[u32],
    letters: &[u8],
    from: usize,
    line: usize,
    to: usize,
    tally: Tally,
) -> Tally
    requires { Counting table.now letters.now name.now from line to tally.counts }
    ensures { Counts table.now letters.now name.now from line to tally result }
{
    let mut more = tally;
    for i in line..to {
        more.counts[i - from] += here(name, table, letters, line, i);
    }
    more.place = line - from;
    more.seen |= is_watched(name, table, letters);
    more
}

// The child at `at` of a parent of this kind: its kind, if it has one, and the tally with it.
pub(crate) fn child(
    text: &[u8],
    at: usize,
    table: &[u32],
    letters: &[u8],
    kind: usize,
    from: usize,
    to: usize,
    tally: Tally,
) -> Option<(usize, Tally)>
    requires { Tallying table.now text.now at kind from to tally.counts }
    ensures { Meets table.now letters.now kind from to (the text.now at) tally result }
{
    let name = lines::name(text, at);
    let line = table::line_named(name, table, letters, from, to);
    let inner = lines::child_kind(text, at, table, letters, kind, from, line, to, tally.place)?;
    Some((inner, counted(name, table, letters, from, line, to, tally)))
}

// So many children are as many as may be.
#[tactic(auto, using(schema::proofs::Laws::Times::standing))]
fn stands_so(times: usize, n: u64, met: bool) -> bool
    ensures { result ≡ stands_by times n met }
{
    match times {
        0 => n == 1,
        1 => n <= 1,
        2 => true,
        3 => 1 <= n,
        _ if met => n == 1,
        _ => n <= 1,
    }
}

// Each line was met as often as it says.
#[tactic(auto, using(schema::proofs::Laws::Times::timing))]
pub(crate) fn times_right(table: &[u32], from: usize, to: usize, tally: Tally) -> bool
    requires { Timed from to }
    ensures { result ≡ times_by table.now from to tally.counts tally.met }
{
    for i in from..to {
        let times = table::line_cell(table, i, 1);
        if !stands_so(times, tally.counts[i - from], tally.met) {
            return false;
        }
    }
    true
}
