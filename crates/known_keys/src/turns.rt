// The keys of a table, as many at a time as there is room for, in their order.
ghost use Rattle.known_keys.specs.Known.{KeysGathered, Taken};

use super::order::arrange;
use label_table::codes::code_at;
use label_table::labels::next_label;

// So many keys, and the Label behind theirs.
#[derive(Clone, Copy)]
pub struct Turn {
    pub n: usize,
    pub next: Option<usize>,
}

// The codes of the keys from a Label on are written from the start, as many as there is room for.
fn gather(text: &[u8], from: Option<usize>, work: &mut [u32]) -> Turn
    ensures { KeysGathered text.now from work.new result.n result.next }
{
    let mut kid = from;
    for n in 0..work.len() {
        let Some(k) = kid else {
            return Turn { n, next: None };
        };
        work[n] = code_at(text, k);
        kid = next_label(text, k);
    }
    Turn {
        n: work.len(),
        next: kid,
    }
}

// The same, in their order.
pub fn taken(text: &[u8], from: Option<usize>, work: &mut [u32]) -> Turn
    ensures { Taken text.now from work.new result.n result.next }
{
    let turn = gather(text, from, work);
    let n = turn.n;
    arrange(&mut work[..n]);
    turn
}
