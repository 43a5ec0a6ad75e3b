// What stands ahead in the contents of an element: each gap between children is passed over once.
ghost use Rattle.std.specs.Prelude.{◌≡◌, ◌-◌, length, drop};
ghost use Rattle.nodes.specs.Ahead.{past_gap, gap_data, ending, tag_passed, ahead_at, first_ahead, ahead_in_tag};
ghost use Rattle.nodes.specs.Scan.{past_tag};
ghost use Rattle.nodes.specs.BlankData.{blank_data_at};
ghost use Rattle.grammar.specs.Parser.{data_at_lem};
ghost use Rattle.steps.specs.Step.{stepped};

use super::scan::{past_tag, tag_left, to_tag};
use heads::comments::comment_end;
use heads::data::data_end;
use letters::blanks::{blanks_end, mark_end};
use markup::pieces::front_at;
use nodes::ahead::Ahead;
use nodes::scan::Tag;
use steps::pieces::Front;

// Behind the blanks at `at`; with `words`, at the first `<`.
fn past_gap(text: &[u8], at: usize, words: bool) -> usize
    ensures { result ≡ length text.now - length (past_gap words (drop at text.now)) }
{
    if words {
        return to_tag(text, at);
    }
    blanks_end(text, at)
}

// CDATA that holds blanks alone.
fn blank_data_end(text: &[u8], at: usize) -> Option<usize>
    ensures { result ≡ stepped (length text.now) (blank_data_at (drop at text.now)) }
{
    let i = mark_end(text, at, b"<![CDATA[")?;
    mark_end(text, blanks_end(text, i), b"]]>")
}

// CDATA in a gap: with `words` any, else such that holds blanks alone.
#[tactic(auto, using(nodes::proofs::Laws::BlankData::gap_blank, nodes::proofs::Laws::BlankData::gap_marked))]
fn gap_data_end(text: &[u8], at: usize, words: bool) -> Option<usize>
    ensures { result ≡ stepped (length text.now) (gap_data words (data_at_lem (drop at text.now))) }
{
    if words {
        return data_end(text, at);
    }
    blank_data_end(text, at)
}

// The end tag at `at`.
fn end_at(text: &[u8], at: usize) -> Ahead
    ensures { result ≡ ending (length text.now) (past_tag (drop at text.now)) }
{
    match past_tag(text, at) {
        Some(j) => Ahead::End(j),
        None => Ahead::Stray,
    }
}

// What stands behind comments and blanks, or with `words` behind any characters, in CDATA or not, in the contents that go on at `at`: the end
// tag is told by where it begins, and not passed over.
pub(crate) fn tag_ahead(text: &[u8], at: usize, words: bool) -> Ahead
    ensures { tag_passed text.now result ≡ ahead_at words (length text.now) (drop at text.now) }
{
    let mut i = at;
    loop {
        let t = past_gap(text, i, words);
        match front_at(text, t) {
            Front::Start => return Ahead::Child(t),
            Front::Comment => match comment_end(text, t) {
                Some(j) => i = j,
                None => return Ahead::Stray,
            },
            Front::Data => match gap_data_end(text, t, words) {
                Some(j) => i = j,
                None => return Ahead::Stray,
            },
            Front::Close => return Ahead::End(t),
            Front::Text => return Ahead::Stray,
        }
    }
}

// The same, with the end tag passed over.
pub fn ahead_from(text: &[u8], at: usize, words: bool) -> Ahead
    ensures { result ≡ ahead_at words (length text.now) (drop at text.now) }
{
    match tag_ahead(text, at, words) {
        Ahead::Child(t) => Ahead::Child(t),
        Ahead::End(t) => end_at(text, t),
        Ahead::Stray => Ahead::Stray,
    }
}

// The same for an element's contents, from their start: `at` is a place in its start tag, outside of quotes.
pub fn ahead_in_tag(text: &[u8], at: usize, words: bool) -> Ahead
    ensures { result ≡ ahead_in_tag words text.now at }
{
    match tag_left(text, at) {
        Some(Tag::Open(i)) => ahead_from(text, i, words),
        Some(Tag::Bare(i)) => Ahead::End(i),
        None => Ahead::Stray,
    }
}

// The same for the element at `at`.
pub fn ahead_first(text: &[u8], at: usize, words: bool) -> Ahead
    ensures { result ≡ first_ahead words text.now at }
{
    if text.len() <= at {
        return Ahead::Stray;
    }
    ahead_in_tag(text, at + 1, words)
}
