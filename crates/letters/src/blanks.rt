// Blanks, marks, and what stands behind blanks.
ghost use Rattle.std.specs.Prelude.{◌≡◌, length, drop, Some};
ghost use Rattle.grammar.specs.Bytes.{ascii, blank, begins};
ghost use Rattle.grammar.specs.Read.{span, mark};
ghost use Rattle.grammar.specs.Parser.{gap_at, equals_at, feed_at, ends, closing, asking};
ghost use Rattle.steps.specs.Step.{stepped};

use super::classes::is_blank;

// Where the blanks at `at` end.
pub fn blanks_end(text: &[u8], at: usize) -> usize
    ensures { Some result ≡ stepped (length text.now) (span blank (drop at text.now)) }
{
    for i in at..text.len() {
        if !is_blank(text[i]) {
            return i;
        }
    }
    text.len()
}

// Blanks, one at least.
pub fn gap_end(text: &[u8], at: usize) -> Option<usize>
    ensures { result ≡ stepped (length text.now) (gap_at (drop at text.now)) }
{
    if !is_blank(*text.get(at)?) {
        return None;
    }
    Some(blanks_end(text, at + 1))
}

// Where the end of a line ends, `at` behind its carriage return: behind the line feed, if one stands there.
pub fn feed_end(text: &[u8], at: usize) -> usize
    ensures { Some result ≡ stepped (length text.now) (feed_at (ascii "\n") (drop at text.now)) }
{
    match text.get(at) {
        Some(b'\n') => at + 1,
        Some(_) => at,
        None => text.len(),
    }
}

// `=`, with blanks round it.
pub fn equals_end(text: &[u8], at: usize) -> Option<usize>
    ensures { result ≡ stepped (length text.now) (equals_at (drop at text.now)) }
{
    let i = blanks_end(text, at);
    if *text.get(i)? != b'=' {
        return None;
    }
    Some(blanks_end(text, i + 1))
}

// The bytes of the word. By a loop: `strip_prefix` was slower on texts with many comments and references.
pub fn mark_end(text: &[u8], at: usize, word: &[u8]) -> Option<usize>
    ensures { result ≡ stepped (length text.now) (mark word.now (drop at text.now)) }
{
    let mut i = at;
    for b in word {
        if *text.get(i)? != *b {
            return None;
        }
        i += 1;
    }
    if text.len() < i {
        return Some(text.len());
    }
    Some(i)
}

// The word stands at `at`.
pub fn starts(text: &[u8], at: usize, word: &[u8]) -> bool
    ensures { result ≡ begins word.now (drop at text.now) }
{
    mark_end(text, at, word).is_some()
}

// `>` or `/` stands behind the blanks at `at`.
pub fn tag_ends(text: &[u8], at: usize) -> bool
    ensures { result ≡ ends closing (drop at text.now) }
{
    match text.get(blanks_end(text, at)) {
        Some(b) => (*b == b'>') | (*b == b'/'),
        None => false,
    }
}

// `?` stands behind the blanks at `at`.
pub fn asks(text: &[u8], at: usize) -> bool
    ensures { result ≡ ends asking (drop at text.now) }
{
    text.get(blanks_end(text, at)) == Some(&b'?')
}
