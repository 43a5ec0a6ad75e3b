// Comments.
ghost use Rattle.std.specs.Prelude.{◌≡◌, length, drop};
ghost use Rattle.grammar.specs.Bytes.{ascii, begins};
ghost use Rattle.grammar.specs.Parser.{remark_at, comment_at};
ghost use Rattle.steps.specs.Step.{stepped};
ghost use Rattle.steps.specs.Leaves.{comment_rest_at};

use super::characters::wide_character_end;
use letters::blanks::{mark_end, starts};
use letters::classes::is_plain;

// A character of a comment, or a dash and a character that is none.
fn odd_remark_end(text: &[u8], at: usize) -> Option<usize>
    ensures { result ≡ stepped (length text.now) (remark_at (drop at text.now)) }
{
    if *text.get(at)? != b'-' {
        return wide_character_end(text, at);
    }
    if *text.get(at + 1)? == b'-' {
        return None;
    }
    wide_character_end(text, at + 1)
}

// The same, quick where the character is plain.
fn remark_end(text: &[u8], at: usize) -> Option<usize>
    ensures { result ≡ stepped (length text.now) (remark_at (drop at text.now)) }
{
    let b = *text.get(at)?;
    if b != b'-' && is_plain(b) {
        return Some(at + 1);
    }
    odd_remark_end(text, at)
}

// `--` stands at `at`. The first byte is asked before: few are a dash, and this is asked of each byte of a comment.
#[tactic(auto, using(steps::proofs::Laws::Comments::dashes_none, steps::proofs::Laws::Comments::dashes_other))]
fn dashes_at(text: &[u8], at: usize) -> bool
    ensures { result ≡ begins (ascii "--") (drop at text.now) }
{
    at < text.len() && text[at] == b'-' && starts(text, at, b"--")
}

// The rest of a comment, with its end.
fn comment_rest_end(text: &[u8], at: usize) -> Option<usize>
    ensures { result ≡ stepped (length text.now) (comment_rest_at (drop at text.now)) }
{
    let mut i = at;
    while i < text.len() {
        if dashes_at(text, i) {
            return mark_end(text, i, b"-->");
        }
        i = remark_end(text, i)?;
    }
    None
}

pub fn comment_end(text: &[u8], at: usize) -> Option<usize>
    ensures { result ≡ stepped (length text.now) (comment_at (drop at text.now)) }
{
    let from = mark_end(text, at, b"<!--")?;
    comment_rest_end(text, from)
}
