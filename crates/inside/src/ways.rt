// Ways to an element of a text: what a way reaches, and where it stands, by the grammar; and the steps that a program takes.
ghost use Rattle.std.specs.Prelude.{◌≡◌};
ghost use Rattle.inside.specs.Treads.{child_named};
ghost use Rattle.inside.specs.One.{tag_end};

use super::names::name_is;
use elements::children::{first_child, next_child};
use elements::scan::tag_end;
use nodes::scan::Tag;

// The n-th child of this name, from 0, of the element at `at`.
pub fn child_named(text: &[u8], at: usize, word: &[u8], n: u64) -> Option<usize>
    ensures { result ≡ child_named word.now n text.now at }
{
    let mut left = n;
    let mut kid = first_child(text, at);
    loop {
        let k = kid?;
        if name_is(text, k, word) {
            if left == 0 {
                return Some(k);
            }
            left -= 1;
        }
        kid = next_child(text, k);
    }
}

// Behind the start tag, or the only tag, of the element at `at`.
pub fn behind_tag(text: &[u8], at: usize) -> usize
    ensures { result ≡ tag_end text.now at }
{
    match tag_end(text, at) {
        Some(Tag::Open(i)) => i,
        Some(Tag::Bare(i)) => i,
        None => 0,
    }
}
