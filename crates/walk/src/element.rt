// The walk: an element's own part, then its children, each of the kind that its parent's lines give it.
ghost use Rattle.std.specs.Prelude.{◌≡◌, ◌||◌};
ghost use Rattle.nodes.specs.Places.{the};
ghost use Rattle.schema.specs.Tallied.{times_by};
ghost use Rattle.schema.specs.Walked.{Walks, refused_walk, finished_walk};
ghost use Rattle.schema.specs.Asked.{Known, Timed};

use crate::tally;
use lookup::table;
use nodes::ahead::Ahead;
use schema::{Tally, Walked};

fn refused() -> Walked
    ensures { result ≡ refused_walk }
{
    Walked {
        fault: 6,
        behind: 0,
        holds: false,
    }
}

// At the end of an element with these lines, before `behind`.
fn finished(table: &[u32], from: usize, to: usize, tally: Tally, worst: u8, behind: usize) -> Walked
    requires { Timed from to }
    ensures { result ≡ finished_walk (times_by table.now from to tally.counts tally.met) worst behind
        (tally.seen || tally.met) }
{
    if tally::times_right(table, from, to, tally) {
        return Walked {
            fault: worst,
            behind,
            holds: tally.seen | tally.met,
        };
    }
    refused()
}

// The fault of the element at `at`, of this kind, and of all that is in it; and where it ends, so that nobody passes over it again.
pub(crate) fn fault(text: &[u8], at: usize, table: &[u32], letters: &[u8], kind: usize) -> Walked
    requires { Known text.now at kind }
    ensures { Walks table.now letters.now text.now at kind result }
{
    let own = values::own_fault(text, at, table, letters, kind);
    let mut worst = own.fault;
    let from = table::kind_cell(table, kind, 2);
    let to = table::lines_end(table, kind);
    let words = table::kind_cell(table, kind, 4) != 0;
    let mut tally = Tally {
        counts: [0; 8],
        place: 0,
        seen: false,
        met: false,
    };
    let mut next = elements::ahead::ahead_in_tag(text, own.place, words);
    loop {
        match next {
            Ahead::Child(k) => {
                let Some((inner, more)) = tally::child(
                    text, k, table, letters, kind, from, to, tally,
                ) else {
                    return refused();
                };
                let walked = fault(text, k, table, letters, inner);
                worst = values::faults::sooner(worst, walked.fault);
                if worst == 6 {
                    return refused();
                }
                tally = more;
                tally.met |= walked.holds;
                next = elements::ahead::ahead_from(text, walked.behind, words);
            }
            Ahead::End(behind) => {
                return finished(table, from, to, tally, worst, behind);
            }
            Ahead::Stray => {
                return refused();
            }
        }
    }
}
