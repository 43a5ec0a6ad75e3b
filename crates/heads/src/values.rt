// Values of attributes. By tests and places, and not by `get` and `match`: attributes take longer with those.
ghost use Rattle.std.specs.Prelude.{◌&&◌, not, eqb, ◌≡◌, length, drop};
ghost use Rattle.grammar.specs.Bytes.{between, special};
ghost use Rattle.grammar.specs.Parser.{value_character_at, value_at};
ghost use Rattle.steps.specs.Step.{stepped};
ghost use Rattle.steps.specs.Leaves.{value_rest_at};

use super::characters::{reference_end, wide_character_end};
use letters::blanks::feed_end;
use letters::classes::{is_blank, is_quote};

// A character in a value between two `q`.
fn odd_in_value_end(text: &[u8], at: usize, q: u8) -> Option<usize>
    ensures { result ≡ stepped (length text.now) (value_character_at q (drop at text.now)) }
{
    if text.len() <= at {
        return None;
    }
    let b = text[at];
    if b == b'&' {
        return reference_end(text, at);
    }
    if b == b'\r' {
        return Some(feed_end(text, at + 1));
    }
    if is_blank(b) {
        return Some(at + 1);
    }
    if (b == b'<') | (b == q) {
        return None;
    }
    wide_character_end(text, at)
}

// Most characters in a value between two `q`.
fn is_plain_in(b: u8, q: u8) -> bool
    ensures { result ≡ (between 32 127 b && (not (special b) && not (eqb b q))) }
{
    ((32 <= b) & (b <= 127)) & (!((b == b'<') | (b == b'&')) & !(b == q))
}

// The same, quick where the character is plain.
pub fn value_character_end(text: &[u8], at: usize, q: u8) -> Option<usize>
    ensures { result ≡ stepped (length text.now) (value_character_at q (drop at text.now)) }
{
    if text.len() <= at {
        return None;
    }
    if is_plain_in(text[at], q) {
        return Some(at + 1);
    }
    odd_in_value_end(text, at, q)
}

// The rest of a value that `q` began, up to the other `q`.
fn value_rest_end(text: &[u8], at: usize, q: u8) -> Option<usize>
    ensures { result ≡ stepped (length text.now) (value_rest_at q (drop at text.now)) }
{
    let mut i = at;
    while i < text.len() {
        if text[i] == q {
            return Some(i + 1);
        }
        match value_character_end(text, i, q) {
            Some(j) => {
                i = j;
            }
            None => {
                return None;
            }
        }
    }
    None
}

// A value with its quotes.
pub fn value_end(text: &[u8], at: usize) -> Option<usize>
    ensures { result ≡ stepped (length text.now) (value_at (drop at text.now)) }
{
    if text.len() <= at {
        return None;
    }
    let q = text[at];
    if !is_quote(q) {
        return None;
    }
    value_rest_end(text, at + 1, q)
}
