// Passing over what is known to be well formed: only tags matter.
ghost use Rattle.std.specs.Prelude.{◌≡◌, ◌+◌, ◌-◌, ◌<◌, ◌≤◌, length, drop, get_or};
ghost use Rattle.grammar.specs.Parser.{closing};
ghost use Rattle.steps.specs.Step.{stepped};
ghost use Rattle.steps.specs.Blocks.{Through, other};
ghost use Rattle.nodes.specs.Scan.{to_tag, past_tag, finish, tag_from, tag_at, scan, leave_at, skip_at};
ghost use Rattle.nodes.specs.ScanSteps.{tag_told, sign_told, sign};
ghost use Rattle.elements.specs.Tags.{turns, Turning, Nearby};

use heads::comments::comment_end;
use heads::data::data_end;
use letters::blocks::block_lacks;
use letters::classes::is_quote;
use markup::pieces::front_at;
use nodes::scan::{Sign, Tag};
use steps::pieces::Front;

// A place up to which the byte does not stand, reached by blocks of sixteen, for speed.
fn past_blocks(text: &[u8], at: usize, sign: u8) -> usize
    ensures { Through (other sign) text.now at result }
{
    let mut i = at;
    while i < near_limit(text) && block_lacks(text, i, sign) {
        i += 16;
    }
    i
}

// The first `<` from `at` on, or the end of the text.
pub fn to_tag(text: &[u8], at: usize) -> usize
    ensures { result ≡ length text.now - length (to_tag (drop at text.now)) }
{
    for i in past_blocks(text, at, b'<')..text.len() {
        if text[i] == b'<' {
            return i;
        }
    }
    text.len()
}

// Behind the first `>` from `at` on.
pub fn past_tag(text: &[u8], at: usize) -> Option<usize>
    ensures { result ≡ stepped (length text.now) (past_tag (drop at text.now)) }
{
    for i in at..text.len() {
        if text[i] == b'>' {
            return Some(i + 1);
        }
    }
    None
}

#[tactic(auto, using(crate::proofs::Laws::Tags::byte_turns))]
fn ends_tag(b: u8) -> bool
    ensures { result ≡ closing b }
{
    (b == b'>') | (b == b'/')
}

// Whether a tag turns at the byte, outside of quotes.
#[tactic(auto, using(crate::proofs::Laws::Tags::byte_turns))]
fn turns_tag(b: u8) -> bool
    ensures { result ≡ turns 0 b }
{
    ends_tag(b) | is_quote(b)
}

// Behind a tag that ends with the byte at `at`.
#[tactic(auto, using(nodes::proofs::Laws::Scan::finishing))]
fn finish_at(text: &[u8], at: usize) -> Option<Tag>
    requires { at < length text.now }
    ensures { result ≡ tag_told (length text.now)
        (finish (get_or text.now at 0) (drop (at + 1) text.now)) }
{
    if text[at] == b'>' {
        return Some(Tag::Open(at + 1));
    }
    if at + 1 < text.len() && text[at + 1] == b'>' {
        return Some(Tag::Bare(at + 2));
    }
    None
}

// From here on fewer than sixteen bytes are left.
fn near_limit(text: &[u8]) -> usize
    ensures { result ≡ length text.now - 15 }
{
    text.len().saturating_sub(15)
}

// How many of sixteen bytes pass, outside of quotes. Their count is fixed for speed: the loop is unrolled.
fn near_sign(text: &[u8], at: usize) -> usize
    requires { at + 16 ≤ length text.now }
    ensures { Nearby text.now 0 at result }
{
    for k in 0..16 {
        if turns_tag(text[at + k]) {
            return k;
        }
    }
    16
}

// Where the tag turns that goes on at `at` outside of quotes, or the end of the text: by bytes.
#[tactic(auto, using(crate::proofs::Laws::Tags::signs_on))]
fn far_sign(text: &[u8], at: usize) -> usize
    ensures { Turning text.now 0 at result }
{
    for i in at..text.len() {
        if turns_tag(text[i]) {
            return i;
        }
    }
    at.max(text.len())
}

// The same, quick where it turns within sixteen bytes.
fn to_sign(text: &[u8], at: usize) -> usize
    ensures { Turning text.now 0 at result }
{
    if near_limit(text) <= at {
        return far_sign(text, at);
    }
    let k = near_sign(text, at);
    if k < 16 {
        return at + k;
    }
    far_sign(text, at + 16)
}

// How many of sixteen bytes pass, in a value: most values end within them, and a fixed count is quick.
// A twin of `near_sign`: one function for both would take the test as a closure, and clauses that say what it answers.
fn near_quote(text: &[u8], at: usize, q: u8) -> usize
    requires { (q ≡ 0 → ⊥) × (at + 16 ≤ length text.now) }
    ensures { Nearby text.now q at result }
{
    for k in 0..16 {
        if text[at + k] == q {
            return k;
        }
    }
    16
}

// Where the quote stands that ends the value at `at`, or the end of the text: by blocks, then by bytes.
#[tactic(auto, using(crate::proofs::Laws::Tags::values_on))]
fn far_quote(text: &[u8], at: usize, q: u8) -> usize
    requires { q ≡ 0 → ⊥ }
    ensures { Turning text.now q at result }
{
    let far = past_blocks(text, at, q);
    for i in far..text.len() {
        if text[i] == q {
            return i;
        }
    }
    far.max(text.len())
}

// The same, quick where the value ends within sixteen bytes.
fn to_quote(text: &[u8], at: usize, q: u8) -> usize
    requires { q ≡ 0 → ⊥ }
    ensures { Turning text.now q at result }
{
    if near_limit(text) <= at {
        return far_quote(text, at, q);
    }
    let k = near_quote(text, at, q);
    if k < 16 {
        return at + k;
    }
    far_quote(text, at + 16, q)
}

// The start tag that goes on at `at`, outside of quotes: signs and values by turns.
pub fn tag_rest(text: &[u8], at: usize) -> Option<Tag>
    ensures { result ≡ tag_told (length text.now) (tag_from 0 (drop at text.now)) }
{
    let mut i = at;
    loop {
        let j = to_sign(text, i);
        if text.len() <= j {
            return None;
        }
        let b = text[j];
        if ends_tag(b) {
            return finish_at(text, j);
        }
        let k = to_quote(text, j + 1, b);
        if text.len() <= k {
            return None;
        }
        i = k + 1;
    }
}

// The same, quick where the tag ends at `at`.
pub fn tag_left(text: &[u8], at: usize) -> Option<Tag>
    ensures { result ≡ tag_told (length text.now) (tag_from 0 (drop at text.now)) }
{
    if at < text.len() && ends_tag(text[at]) {
        return finish_at(text, at);
    }
    tag_rest(text, at)
}

// The start tag at `at`.
pub fn tag_end(text: &[u8], at: usize) -> Option<Tag>
    ensures { result ≡ tag_told (length text.now) (tag_at (drop at text.now)) }
{
    if text.len() <= at {
        return None;
    }
    tag_rest(text, at + 1)
}

// What stands at a place where contents go on with a tag.
fn sign_at(text: &[u8], at: usize) -> Option<Sign>
    requires { at ≤ length text.now }
    ensures { result ≡ sign_told (length text.now) (sign (drop at text.now)) }
{
    match front_at(text, at) {
        Front::Close => Some(Sign::Close(at)),
        Front::Comment => Some(Sign::Flat(comment_end(text, at)?)),
        Front::Data => Some(Sign::Flat(data_end(text, at)?)),
        Front::Start => match tag_end(text, at)? {
            Tag::Open(j) => Some(Sign::Open(j)),
            Tag::Bare(j) => Some(Sign::Flat(j)),
        },
        Front::Text => None,
    }
}

// Where the contents that begin at `at` end: before their end tag.
pub fn contents_end(text: &[u8], at: usize) -> Option<usize>
    ensures { result ≡ stepped (length text.now) (scan 0 (drop at text.now)) }
{
    let mut depth: usize = 0;
    let mut i = at;
    loop {
        match sign_at(text, to_tag(text, i))? {
            Sign::Close(j) => {
                if depth == 0 {
                    return Some(j);
                }
                i = past_tag(text, j)?;
                depth -= 1;
            }
            Sign::Open(j) => {
                depth += 1;
                i = j;
            }
            Sign::Flat(j) => {
                i = j;
            }
        }
    }
}

// Behind the end tag of an element whose contents go on at `at`.
pub fn leave(text: &[u8], at: usize) -> Option<usize>
    ensures { result ≡ stepped (length text.now) (leave_at (drop at text.now)) }
{
    past_tag(text, contents_end(text, at)?)
}

// Behind the element at `at`.
pub fn skip(text: &[u8], at: usize) -> Option<usize>
    ensures { result ≡ stepped (length text.now) (skip_at (drop at text.now)) }
{
    match tag_end(text, at)? {
        Tag::Open(i) => leave(text, i),
        Tag::Bare(i) => Some(i),
    }
}
