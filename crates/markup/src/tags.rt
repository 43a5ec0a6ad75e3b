// Start tags and end tags.
ghost use Rattle.std.specs.Prelude.{◌≡◌, ◌+◌, length, drop};
ghost use Rattle.steps.specs.Step.{stepped};
ghost use Rattle.steps.specs.Keys.{head_at};
ghost use Rattle.steps.specs.Tags.{opened, close_at, closing_at};

use heads::attributes::head_end;
use letters::blanks::{blanks_end, mark_end};
use letters::names::name_end;
use steps::tags::Opened;

// A start tag, or the tag of an empty element.
pub fn open_end(text: &[u8], at: usize) -> Opened
    ensures { result ≡ opened (length text.now) (head_at (drop at text.now)) }
{
    let Some(i) = head_end(text, at) else {
        return Opened::Bad;
    };
    if let Some(j) = mark_end(text, i, b">") {
        return Opened::Full(j);
    }
    match mark_end(text, i, b"/>") {
        Some(j) => Opened::Empty(j),
        None => Opened::Bad,
    }
}

// An end tag with the name.
pub fn close_end(text: &[u8], at: usize, name: &[u8]) -> Option<usize>
    ensures { result ≡ stepped (length text.now) (close_at name.now (drop at text.now)) }
{
    let i = mark_end(text, at, b"</")?;
    let j = mark_end(text, i, name)?;
    mark_end(text, blanks_end(text, j), b">")
}

// The end tag at `at` of the element whose start tag begins at `from`.
pub fn closing_end(text: &[u8], from: usize, at: usize) -> Option<usize>
    ensures { result ≡ stepped (length text.now)
        (closing_at (drop (from + 1) text.now) (drop at text.now)) }
{
    if text.len() <= from {
        return None;
    }
    let begin = from + 1;
    let end = name_end(text, begin)?;
    close_end(text, at, &text[begin..end])
}
