// Whether a key stands twice in the table of labels at a place: by its keys in their order, all of them where work space is lent for so
// many, and else part by part.
#![tactic(auto)]

// A part of the keys in their order, and what comes behind it.
mod parts;

ghost use Rattle.std.specs.Prelude.{◌≡◌, ◌<◌, length};
ghost use Rattle.label_table.specs.Labels.{twice_at};

use known_keys::taken;
use label_table::labels::first_label;
use parts::part_twice;

// The keys, part by part in the order of the text.
fn search_in(text: &[u8], at: usize, work: &mut [u32]) -> bool
    requires { 0 < length work.old }
    ensures { result ≡ twice_at text.now at }
{
    let mut kid = first_label(text, at);
    loop {
        match kid {
            Some(_) => {
                let turn = taken(text, kid, work);
                let n = turn.n;
                kid = turn.next;
                if part_twice(text, kid, &work[..n]) {
                    return true;
                }
            }
            None => {
                return false;
            }
        }
    }
}

// A key stands twice in the table at `at`. The more work space is lent, the longer are the parts; where none is, each key is one.
pub fn key_twice(text: &[u8], at: usize, work: &mut [u32]) -> bool
    ensures { result ≡ twice_at text.now at }
{
    if work.len() == 0 {
        let mut one = [0u32; 1];
        return search_in(text, at, &mut one[..]);
    }
    search_in(text, at, work)
}
