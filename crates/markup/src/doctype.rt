// A DOCTYPE.
ghost use Rattle.std.specs.Prelude.{◌≡◌, length, drop};
ghost use Rattle.grammar.specs.Bytes.{skipped};
ghost use Rattle.grammar.specs.Parser.{skipped_at, doctype_at};
ghost use Rattle.steps.specs.Step.{stepped};
ghost use Rattle.steps.specs.Leaves.{doctype_rest_at};

use heads::characters::character_end;
use letters::blanks::mark_end;

// A DOCTYPE passes over it.
#[tactic(auto, unfolding(grammar::specs::Bytes::skipped))]
fn is_skipped(a: u8) -> bool
    ensures { result ≡ skipped a }
{
    !matches!(a, b'[' | b']' | b'<' | b'>')
}

// A character that it passes over.
fn skipped_end(text: &[u8], at: usize) -> Option<usize>
    ensures { result ≡ stepped (length text.now) (skipped_at (drop at text.now)) }
{
    if !is_skipped(*text.get(at)?) {
        return None;
    }
    character_end(text, at)
}

// The rest of it, with its end.
fn doctype_rest_end(text: &[u8], at: usize) -> Option<usize>
    ensures { result ≡ stepped (length text.now) (doctype_rest_at (drop at text.now)) }
{
    let mut i = at;
    while i < text.len() {
        if text[i] == b'>' {
            return Some(i + 1);
        }
        i = skipped_end(text, i)?;
    }
    None
}

pub fn doctype_end(text: &[u8], at: usize) -> Option<usize>
    ensures { result ≡ stepped (length text.now) (doctype_at (drop at text.now)) }
{
    let from = mark_end(text, at, b"<!DOCTYPE")?;
    doctype_rest_end(text, from)
}
