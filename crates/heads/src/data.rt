// CDATA.
ghost use Rattle.std.specs.Prelude.{◌≡◌, length, drop, Some};
ghost use Rattle.grammar.specs.Bytes.{ascii, begins};
ghost use Rattle.grammar.specs.Read.{span};
ghost use Rattle.grammar.specs.Parser.{data_character_at, data_at_lem};
ghost use Rattle.steps.specs.Step.{stepped};
ghost use Rattle.steps.specs.Leaves.{data_plain, data_rest_at};

use super::characters::character_end;
use letters::blanks::{feed_end, mark_end, starts};
use letters::blocks::past_quick;

// `]]>` stands at `at`. The first byte is asked before: few are a bracket.
#[tactic(auto, using(steps::proofs::Laws::Data::brackets_there))]
fn brackets_at(text: &[u8], at: usize) -> bool
    ensures { result ≡ begins (ascii "]]>") (drop at text.now) }
{
    at < text.len() && text[at] == b']' && starts(text, at, b"]]>")
}

// A character, or the end of a line.
fn data_character_end(text: &[u8], at: usize) -> Option<usize>
    ensures { result ≡ stepped (length text.now) (data_character_at (drop at text.now)) }
{
    if *text.get(at)? == b'\r' {
        return Some(feed_end(text, at + 1));
    }
    character_end(text, at)
}

// A byte that is a character by itself, and is no `]` and no return. By `&` and `|`, for speed (letters/classes.rt).
#[tactic(auto, unfolding(steps::specs::Leaves::data_plain, grammar::specs::Characters::lead1, grammar::specs::Bytes::blank))]
fn is_data_plain(a: u8) -> bool
    ensures { result ≡ data_plain a }
{
    (((a == b' ') | ((a == b'\t') | ((a == b'\n') | (a == b'\r')))) | ((32 <= a) & (a <= 127)))
        & (!(a == b']') & !(a == b'\r'))
}

// Where such bytes end: by blocks, and one by one behind the last block.
fn far_data_plain_end(text: &[u8], at: usize) -> usize
    ensures { Some result ≡ stepped (length text.now) (span data_plain (drop at text.now)) }
{
    for i in past_quick(text, at)..text.len() {
        if !is_data_plain(text[i]) {
            return i;
        }
    }
    text.len()
}

// Where such bytes end. The first sixteen are read one by one, as those of plain text are.
fn data_plain_end(text: &[u8], at: usize) -> usize
    ensures { Some result ≡ stepped (length text.now) (span data_plain (drop at text.now)) }
{
    let near = at.saturating_add(16);
    for i in at..near {
        let Some(b) = text.get(i) else {
            return text.len();
        };
        if !is_data_plain(*b) {
            return i;
        }
    }
    far_data_plain_end(text, near)
}

// The rest of CDATA, with its end.
fn data_rest_end(text: &[u8], at: usize) -> Option<usize>
    ensures { result ≡ stepped (length text.now) (data_rest_at (drop at text.now)) }
{
    let mut i = at;
    while i < text.len() {
        let j = data_plain_end(text, i);
        if brackets_at(text, j) {
            return mark_end(text, j, b"]]>");
        }
        i = data_character_end(text, j)?;
    }
    None
}

pub fn data_end(text: &[u8], at: usize) -> Option<usize>
    ensures { result ≡ stepped (length text.now) (data_at_lem (drop at text.now)) }
{
    let from = mark_end(text, at, b"<![CDATA[")?;
    data_rest_end(text, from)
}
