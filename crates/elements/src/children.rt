// The children of the element at a position.
ghost use Rattle.std.specs.Prelude.{◌≡◌, length, drop};
ghost use Rattle.nodes.specs.Children.{kid_at, first_child, next};
ghost use Rattle.nodes.specs.Root.{root};

use super::ahead::tag_ahead;
use super::scan::{skip, tag_end};
use markup::prolog::root_start;
use nodes::ahead::Ahead;
use nodes::scan::Tag;

// The child behind the comments, the characters and the CDATA at `at`, if there is one.
#[tactic(auto, using(nodes::proofs::Laws::Children::kid_of_tag))]
pub fn kid_from(text: &[u8], at: usize) -> Option<usize>
    ensures { result ≡ kid_at (length text.now) (drop at text.now) }
{
    match tag_ahead(text, at, true) {
        Ahead::Child(k) => Some(k),
        Ahead::End(_) | Ahead::Stray => None,
    }
}

// The first child of the element at `at`.
pub fn first_child(text: &[u8], at: usize) -> Option<usize>
    ensures { result ≡ first_child text.now at }
{
    match tag_end(text, at)? {
        Tag::Open(i) => kid_from(text, i),
        Tag::Bare(_) => None,
    }
}

// The next child behind the element at `at`.
pub fn next_child(text: &[u8], at: usize) -> Option<usize>
    ensures { result ≡ next text.now at }
{
    kid_from(text, skip(text, at)?)
}

// The root of the text: the element behind all that stands before it.
#[tactic(auto, using(nodes::proofs::Laws::Children::rooting))]
pub fn root_of(text: &[u8]) -> Option<usize>
    ensures { result ≡ root text.now }
{
    root_start(text)
}
