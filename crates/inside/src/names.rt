// The name of the element at a position.
ghost use Rattle.std.specs.Prelude.{◌≡◌};
ghost use Rattle.nodes.specs.Names.{named};

use letters::names::{equal, name_end};

// The element at `at` has the name.
pub fn name_is(text: &[u8], at: usize, word: &[u8]) -> bool
    ensures { result ≡ named text.now at word.now }
{
    if text.len() <= at || text[at] != b'<' {
        return false;
    }
    match name_end(text, at + 1) {
        Some(e) => equal(&text[at + 1..e], word),
        None => false,
    }
}
