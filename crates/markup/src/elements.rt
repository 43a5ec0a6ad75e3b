// Elements and their contents: the reader of each calls the other's. Siblings are a loop, so the stack is as deep as the elements.
ghost use Rattle.std.specs.Prelude.{◌≡◌, length, drop};
ghost use Rattle.grammar.specs.Parser.{element_at};
ghost use Rattle.grammar.specs.Unfuelled.{contents};
ghost use Rattle.steps.specs.Step.{stepped};

use super::pieces::between_end;
use super::tags::{closing_end, open_end};
use steps::pieces::Between;
use steps::tags::Opened;

// An element that is at most `depth` deep.
#[cycle(contents_end_element_end)]
fn element_end(text: &[u8], at: usize, depth: usize) -> Option<usize>
    ensures { result ≡ stepped (length text.now) (element_at contents depth (drop at text.now)) }
{
    if depth == 0 {
        return None;
    }
    match open_end(text, at) {
        Opened::Full(i) => {
            let j = contents_end(text, i, depth - 1)?;
            closing_end(text, at, j)
        }
        Opened::Empty(i) => Some(i),
        Opened::Bad => None,
    }
}

// Contents, up to the end tag, of elements that are at most `depth` deep.
#[cycle(contents_end_element_end)]
fn contents_end(text: &[u8], at: usize, depth: usize) -> Option<usize>
    ensures { result ≡ stepped (length text.now) (contents depth (drop at text.now)) }
{
    let mut i = at;
    loop {
        match between_end(text, i) {
            Between::Close(j) => {
                return Some(j);
            }
            Between::Start(j) => {
                i = element_end(text, j, depth)?;
            }
            Between::Bad => {
                return None;
            }
        }
    }
}

// An element that is at most 16 deep.
pub fn whole_end(text: &[u8], at: usize) -> Option<usize>
    ensures { result ≡ stepped (length text.now) (element_at contents 16 (drop at text.now)) }
{
    element_end(text, at, 16)
}
