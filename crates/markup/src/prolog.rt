// What stands round the root: the declaration, blanks and comments, a DOCTYPE.
ghost use Rattle.std.specs.Prelude.{◌≡◌, length, drop};
ghost use Rattle.grammar.specs.Parser.{declaration_at, setting_at, prologue_at};
ghost use Rattle.steps.specs.Step.{stepped};
ghost use Rattle.steps.specs.Prologue.{asides_at, typed_at, preamble_at, quoted_at, encoding_at};

use super::doctype::doctype_end;
use heads::comments::comment_end;
use letters::blanks::{asks, blanks_end, equals_end, gap_end, mark_end, starts};
use letters::classes::is_quote;

// Blanks and comments.
pub fn asides_end(text: &[u8], at: usize) -> Option<usize>
    ensures { result ≡ stepped (length text.now) (asides_at (drop at text.now)) }
{
    let mut i = at;
    loop {
        let j = blanks_end(text, i);
        if !starts(text, j, b"<!-") {
            return Some(j);
        }
        i = comment_end(text, j)?;
    }
}

// The value between two quotes of one kind.
fn quoted_end(text: &[u8], at: usize, value: &[u8]) -> Option<usize>
    ensures { result ≡ stepped (length text.now) (quoted_at value.now (drop at text.now)) }
{
    let quote = *text.get(at)?;
    if !is_quote(quote) {
        return None;
    }
    let i = mark_end(text, at + 1, value)?;
    if *text.get(i)? != quote {
        return None;
    }
    Some(i + 1)
}

// `key="value"`, with the blanks before it.
fn setting_end(text: &[u8], at: usize, key: &[u8], value: &[u8]) -> Option<usize>
    ensures { result ≡ stepped (length text.now)
        (setting_at key.now value.now (drop at text.now)) }
{
    let i = gap_end(text, at)?;
    let j = mark_end(text, i, key)?;
    let k = equals_end(text, j)?;
    quoted_end(text, k, value)
}

// The encoding, or nothing where `?` stands next.
fn encoding_end(text: &[u8], at: usize) -> Option<usize>
    ensures { result ≡ stepped (length text.now) (encoding_at (drop at text.now)) }
{
    if asks(text, at) {
        return Some(at);
    }
    setting_end(text, at, b"encoding", b"UTF-8")
}

// The declaration, or nothing.
pub fn declaration_end(text: &[u8]) -> Option<usize>
    ensures { result ≡ stepped (length text.now) (declaration_at text.now) }
{
    if !starts(text, 0, b"<?") {
        return Some(0);
    }
    let i = mark_end(text, 0, b"<?xml")?;
    let j = setting_end(text, i, b"version", b"1.0")?;
    let k = encoding_end(text, j)?;
    mark_end(text, blanks_end(text, k), b"?>")
}

// A DOCTYPE with the blanks and comments behind it, or nothing.
fn typed_end(text: &[u8], at: usize) -> Option<usize>
    ensures { result ≡ stepped (length text.now) (typed_at (drop at text.now)) }
{
    if text.len() <= at {
        return Some(text.len());
    }
    if !starts(text, at, b"<!D") {
        return Some(at);
    }
    let i = doctype_end(text, at)?;
    asides_end(text, i)
}

// Blanks and comments, and at most one DOCTYPE among them.
fn prologue_end(text: &[u8], at: usize) -> Option<usize>
    ensures { result ≡ stepped (length text.now) (prologue_at (drop at text.now)) }
{
    let i = asides_end(text, at)?;
    typed_end(text, i)
}

// Where the root begins.
pub fn root_start(text: &[u8]) -> Option<usize>
    ensures { result ≡ stepped (length text.now) (preamble_at text.now) }
{
    let i = declaration_end(text)?;
    prologue_end(text, i)
}
