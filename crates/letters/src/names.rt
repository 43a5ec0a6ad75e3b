// Names.
ghost use Rattle.std.specs.Prelude.{◌≡◌, length, drop, Some};
ghost use Rattle.grammar.specs.Bytes.{name_byte};
ghost use Rattle.grammar.specs.Read.{span};
ghost use Rattle.grammar.specs.Parser.{name_at, same_bytes};
ghost use Rattle.steps.specs.Step.{stepped};

use super::classes::{is_name_byte, is_name_start};

// Where the bytes of a name at `at` end.
pub fn name_bytes_end(text: &[u8], at: usize) -> usize
    ensures { Some result ≡ stepped (length text.now) (span name_byte (drop at text.now)) }
{
    for i in at..text.len() {
        if !is_name_byte(text[i]) {
            return i;
        }
    }
    text.len()
}

// A name, of 64 bytes at most.
pub fn name_end(text: &[u8], at: usize) -> Option<usize>
    ensures { result ≡ stepped (length text.now) (name_at (drop at text.now)) }
{
    if !is_name_start(*text.get(at)?) {
        return None;
    }
    let i = name_bytes_end(text, at + 1);
    if 64 < i - at {
        return None;
    }
    Some(i)
}

// Two words are the same.
pub fn equal(s: &[u8], t: &[u8]) -> bool
    ensures { result ≡ same_bytes s.now t.now }
{
    s == t
}
