// Attributes, and the head of a tag.
ghost use Rattle.std.specs.Prelude.{◌≡◌, length, drop};
ghost use Rattle.grammar.specs.Parser.{attributes_at};
ghost use Rattle.steps.specs.Step.{stepped};
ghost use Rattle.steps.specs.Keys.{key_at, named_at, keyed, head_at};
ghost use Rattle.steps.specs.Noted.{Within, part, among, noted};

use super::values::value_end;
use letters::blanks::{blanks_end, equals_end, gap_end, tag_ends};
use letters::names::{equal, name_end};
use steps::attributes::Key;

// Blanks, a name and `=`.
pub fn key_at(text: &[u8], at: usize) -> Option<Key>
    ensures { result ≡ keyed (length text.now) (key_at (drop at text.now)) }
{
    let from = gap_end(text, at)?;
    let to = name_end(text, from)?;
    let end = equals_end(text, to)?;
    Some(Key { from, to, end })
}

// A whole attribute.
pub fn named_at(text: &[u8], at: usize) -> Option<Key>
    ensures { result ≡ keyed (length text.now) (named_at (drop at text.now)) }
{
    let key = key_at(text, at)?;
    let end = value_end(text, key.end)?;
    Some(Key { end, ..key })
}

// The name from `from` to `to` is one of the first `n` that are noted.
fn is_noted(
    text: &[u8],
    starts: &[usize; 16],
    ends: &[usize; 16],
    n: usize,
    from: usize,
    to: usize,
) -> bool
    requires { Within text.now starts.now ends.now n from to }
    ensures { result ≡ among (part from to text.now)
        (noted text.now starts.now ends.now n) }
{
    let mut k = n;
    while 0 < k {
        k -= 1;
        let a = starts[k];
        let b = ends[k];
        if equal(&text[a..b], &text[from..to]) {
            return true;
        }
    }
    false
}

// Attributes, 16 at most, no name twice, with what is noted of them.
fn some_attributes_end(text: &[u8], at: usize) -> Option<usize>
    ensures { result ≡ stepped (length text.now) (attributes_at (drop at text.now)) }
{
    let mut starts = [0usize; 16];
    let mut ends = [0usize; 16];
    let mut n = 0;
    let mut i = at;
    while !tag_ends(text, i) {
        if n == 16 {
            return None;
        }
        let Key { from, to, end } = named_at(text, i)?;
        if is_noted(text, &starts, &ends, n, from, to) {
            return None;
        }
        starts[n] = from;
        ends[n] = to;
        n += 1;
        i = end;
    }
    Some(i)
}

// Attributes, 16 at most, no name twice. Most tags have none, and nothing is noted of them.
pub fn attributes_end(text: &[u8], at: usize) -> Option<usize>
    ensures { result ≡ stepped (length text.now) (attributes_at (drop at text.now)) }
{
    if tag_ends(text, at) {
        return Some(at);
    }
    some_attributes_end(text, at)
}

// A tag up to its `>` or `/>`.
pub fn head_end(text: &[u8], at: usize) -> Option<usize>
    ensures { result ≡ stepped (length text.now) (head_at (drop at text.now)) }
{
    if *text.get(at)? != b'<' {
        return None;
    }
    let i = name_end(text, at + 1)?;
    let j = attributes_end(text, i)?;
    Some(blanks_end(text, j))
}
