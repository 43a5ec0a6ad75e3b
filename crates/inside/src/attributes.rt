// The attributes of the element at a position.
ghost use Rattle.std.specs.Prelude.{◌≡◌, length, drop};
ghost use Rattle.nodes.specs.Attributes.{keys_at_lem, place_in, place};

use heads::attributes::key_at;
use heads::values::value_end;
use letters::blanks::tag_ends;
use letters::names::{equal, name_end};
use steps::attributes::Key;

// Where the value of the attribute with the name begins, from `at` on.
fn place_from(text: &[u8], at: usize, word: &[u8]) -> Option<usize>
    ensures { result ≡ place_in word.now (keys_at_lem (length text.now) (drop at text.now)) }
{
    let mut i = at;
    while !tag_ends(text, i) {
        let Key { from, to, end } = key_at(text, i)?;
        if equal(&text[from..to], word) {
            return Some(end);
        }
        i = value_end(text, end)?;
    }
    None
}

// Where the value of the attribute with the name begins, in the tag of the element at `at`.
pub fn attribute(text: &[u8], at: usize, word: &[u8]) -> Option<usize>
    ensures { result ≡ place text.now at word.now }
{
    if text.len() <= at {
        return None;
    }
    place_from(text, name_end(text, at + 1)?, word)
}
