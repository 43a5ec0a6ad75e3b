// The text of the element at a position, and what is written between its tags.
ghost use Rattle.std.specs.Prelude.{◌≡◌, length, drop};
ghost use Rattle.grammar.specs.Parser.{at_text};
ghost use Rattle.nodes.specs.TextBytes.{outside, within, step_by, step};
ghost use Rattle.nodes.specs.Texts.{inside, as_text, text_step};
ghost use Rattle.nodes.specs.Inside.{between_tags};

use elements::scan::{contents_end, skip, tag_end};
use heads::characters::reference_at;
use heads::comments::comment_end;
use letters::blanks::{feed_end, mark_end};
use markup::pieces::front_at;
use nodes::Text;
use nodes::scan::Tag;
use steps::pieces::Front;

// Where the contents of the element at `at` begin; an empty tag has none.
pub fn text_start(text: &[u8], at: usize) -> Option<usize>
    ensures { result ≡ inside text.now at }
{
    match tag_end(text, at)? {
        Tag::Open(i) => Some(i),
        Tag::Bare(_) => None,
    }
}

// A character, the reference, or the end of a line that stands at `at`: its decoded byte.
fn letter_at(text: &[u8], at: usize) -> Text
    ensures { result ≡ as_text (length text.now) (step_by at_text (drop at text.now)) }
{
    if text.len() <= at {
        return Text::Stop;
    }
    let b = text[at];
    if b == b'&' {
        return match reference_at(text, at) {
            Some((c, j)) => Text::Letter(c, j),
            None => Text::Letter(b'&', at + 1),
        };
    }
    if b == b'\r' {
        return Text::Letter(b'\n', feed_end(text, at + 1));
    }
    Text::Letter(b, at + 1)
}

// Outside of CDATA: comments and children are passed over, and the mark of CDATA leads into it.
fn outside_at(text: &[u8], at: usize) -> Text
    ensures { result ≡ as_text (length text.now) (step (outside (drop at text.now))) }
{
    match front_at(text, at) {
        Front::Text => letter_at(text, at),
        Front::Close => Text::Stop,
        Front::Start => match skip(text, at) {
            Some(j) => Text::Skip(j),
            None => Text::Stop,
        },
        Front::Comment => match comment_end(text, at) {
            Some(j) => Text::Skip(j),
            None => Text::Stop,
        },
        Front::Data => match mark_end(text, at, b"<![CDATA[") {
            Some(j) => Text::Skip(text.len() + 1 + j),
            None => Text::Stop,
        },
    }
}

// Within CDATA, byte `at`: `]]>` leads out of it.
fn within_at(text: &[u8], at: usize) -> Text
    ensures { result ≡ as_text (length text.now) (step (within (drop at text.now))) }
{
    if text.len() <= at {
        return Text::Stop;
    }
    let b = text[at];
    if b == b']' {
        return match mark_end(text, at, b"]]>") {
            Some(j) => Text::Skip(j),
            None => Text::Letter(b']', text.len() + 1 + (at + 1)),
        };
    }
    if b == b'\r' {
        return Text::Letter(b'\n', text.len() + 1 + feed_end(text, at + 1));
    }
    Text::Letter(b, text.len() + 1 + (at + 1))
}

// What stands at a place in the text of an element: up to the text's length a byte outside of CDATA, beyond it one within.
#[tactic(auto, using(nodes::proofs::Laws::Texts::placing))]
pub fn text_at(text: &[u8], at: usize) -> Text
    ensures { result ≡ text_step text.now at }
{
    if text.len() < at {
        return within_at(text, at - (text.len() + 1));
    }
    outside_at(text, at)
}

// The part of the text between the tags of the element at `at`, as it is written.
#[tactic(auto, using(nodes::proofs::Laws::Texts::writing))]
pub fn written<'t>(text: &'t [u8], at: usize) -> &'t [u8]
    ensures { result.now ≡ between_tags text.now at }
{
    if let Some(i) = text_start(text, at) {
        if let Some(j) = contents_end(text, i) {
            return &text[i..j];
        }
    }
    &text[0..0]
}
