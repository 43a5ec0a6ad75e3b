// The decoded bytes of values.
ghost use Rattle.std.specs.Prelude.{◌≡◌, drop, get_or};
ghost use Rattle.grammar.specs.Parser.{same_bytes};
ghost use Rattle.nodes.specs.Values.{decoded_at, value_there, tells};
ghost use Rattle.nodes.specs.Fronts.{behind_quote, behind_front, begins_at_lem};
ghost use Rattle.nodes.specs.Found.{value_at_name};

use super::attributes::attribute;
use heads::characters::reference_at;
use letters::blanks::feed_end;
use letters::classes::is_blank;

// The decoded byte at `at` in a value between two quotes.
fn any_decoded(text: &[u8], at: usize, quote: u8) -> Option<(u8, usize)>
    ensures { result ≡ decoded_at text.now at quote }
{
    if text.len() <= at {
        return None;
    }
    let b = text[at];
    if b == quote {
        return None;
    }
    if b == b'&' {
        return Some(reference_at(text, at).unwrap_or((b'&', at + 1)));
    }
    if b == b'\r' {
        return Some((b' ', feed_end(text, at + 1)));
    }
    if is_blank(b) {
        return Some((b' ', at + 1));
    }
    Some((b, at + 1))
}

// The same, quick where the byte is the quote, or reads as itself: those above the ampersand do.
pub fn decoded(text: &[u8], at: usize, quote: u8) -> Option<(u8, usize)>
    ensures { result ≡ decoded_at text.now at quote }
{
    if text.len() <= at || text[at] == quote {
        return None;
    }
    let b = text[at];
    if b <= b'&' {
        return any_decoded(text, at, quote);
    }
    Some((b, at + 1))
}

// The place behind the word, where the decoded bytes from `at` begin with it.
fn past_word(text: &[u8], at: usize, quote: u8, word: &[u8]) -> Option<usize>
    ensures { result ≡ behind_front text.now quote word.now at }
{
    let mut i = at;
    for want in word {
        let (b, j) = decoded(text, i, quote)?;
        if b != *want {
            return None;
        }
        i = j;
    }
    Some(i)
}

// The decoded bytes from `at` up to the quote are the word.
pub fn rest_is(text: &[u8], at: usize, quote: u8, word: &[u8]) -> bool
    ensures { result ≡ same_bytes (tells quote (drop at text.now)) word.now }
{
    match past_word(text, at, quote, word) {
        Some(i) => decoded(text, i, quote).is_none(),
        None => false,
    }
}

// The quote of the value at `v`; 0 behind the text.
pub fn quote_at(text: &[u8], v: usize) -> u8
    ensures { result ≡ get_or text.now v 0 }
{
    text.get(v).copied().unwrap_or(0)
}

// The place behind the quote of the value at `v`.
#[tactic(auto, using(nodes::proofs::Laws::Fronts::valued))]
fn behind_quote(text: &[u8], v: usize) -> usize
    ensures { result ≡ behind_quote text.now v }
{
    if text.len() <= v {
        return v;
    }
    v + 1
}

// The place behind the front part, where the value at `v` begins with it.
pub fn begins(text: &[u8], v: usize, front: &[u8]) -> Option<usize>
    ensures { result ≡ begins_at_lem text.now v front.now }
{
    past_word(text, behind_quote(text, v), quote_at(text, v), front)
}

// The value that begins at `v`, with its quote, is the word.
#[tactic(auto, using(nodes::proofs::Laws::Fronts::valued))]
pub fn value_is(text: &[u8], v: usize, word: &[u8]) -> bool
    ensures { result ≡ same_bytes (value_there text.now v) word.now }
{
    rest_is(text, behind_quote(text, v), quote_at(text, v), word)
}

// The value of the attribute with the name, nothing where it is missing, is the word.
#[tactic(auto, using(nodes::proofs::Laws::Values::having))]
pub fn attribute_is(text: &[u8], at: usize, name: &[u8], word: &[u8]) -> bool
    ensures { result ≡ same_bytes (value_at_name text.now at name.now) word.now }
{
    match attribute(text, at, name) {
        Some(v) => value_is(text, v, word),
        None => word.is_empty(),
    }
}
