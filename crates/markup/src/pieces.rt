// What stands between the tags in contents: characters, comments and CDATA.
ghost use Rattle.std.specs.Prelude.{◌≡◌, ◌<◌, length, drop, get_or, Some};
ghost use Rattle.grammar.specs.Read.{span};
ghost use Rattle.grammar.specs.Parser.{look, look₃, text_at};
ghost use Rattle.steps.specs.Step.{stepped};
ghost use Rattle.steps.specs.Row.{piece_at, pieces_at};
ghost use Rattle.steps.specs.Pieces.{plain, front, halted, stopped_by};

use heads::characters::{character_end, reference_end};
use heads::comments::comment_end;
use heads::data::data_end;
use letters::blanks::{feed_end, starts};
use letters::blocks::past_quick;
use steps::pieces::{Between, Front};

// What stands behind `<!`.
fn marked_front(text: &[u8], at: usize) -> Front
    ensures { result ≡ front (look₃ (drop at text.now)) }
{
    match text.get(at) {
        Some(b'[') => Front::Data,
        Some(_) => Front::Comment,
        None => Front::Comment,
    }
}

pub fn front_at(text: &[u8], at: usize) -> Front
    ensures { result ≡ front (look (drop at text.now)) }
{
    let Some(a) = text.get(at) else {
        return Front::Close;
    };
    if *a != b'<' {
        return Front::Text;
    }
    match text.get(at + 1) {
        Some(b'/') => Front::Close,
        Some(b'!') => marked_front(text, at + 2),
        Some(_) => Front::Start,
        None => Front::Start,
    }
}

// One character of text, one reference, or one end of a line.
pub fn text_end(text: &[u8], at: usize) -> Option<usize>
    ensures { result ≡ stepped (length text.now) (text_at (drop at text.now)) }
{
    match *text.get(at)? {
        b'&' => reference_end(text, at),
        b'\r' => Some(feed_end(text, at + 1)),
        b'<' => None,
        _ => character_end(text, at),
    }
}

// A `]`, which begins no `]]>`.
fn bracket_end(text: &[u8], at: usize) -> Option<usize>
    requires { (at < length text.now) × (get_or text.now at 0 ≡ 93) }
    ensures { result ≡ stepped (length text.now) (piece_at (drop at text.now)) }
{
    if starts(text, at, b"]]>") {
        return None;
    }
    Some(at + 1)
}

// A comment or CDATA behind `<`, where no tag stands.
fn remark_end(text: &[u8], at: usize) -> Option<usize>
    requires { (at < length text.now) × (get_or text.now at 0 ≡ 60) }
    ensures { result ≡ stepped (length text.now) (piece_at (drop at text.now)) }
{
    match front_at(text, at) {
        Front::Comment => comment_end(text, at),
        Front::Data => data_end(text, at),
        Front::Close | Front::Start | Front::Text => None,
    }
}

// One comment, one character of text, or CDATA.
pub fn piece_end(text: &[u8], at: usize) -> Option<usize>
    ensures { result ≡ stepped (length text.now) (piece_at (drop at text.now)) }
{
    match *text.get(at)? {
        b'<' => remark_end(text, at),
        b']' => bracket_end(text, at),
        _ => text_end(text, at),
    }
}

// A byte that is a character of text by itself, and begins no `]]>`. By `&` and `|`, for speed (letters/classes.rt).
#[tactic(auto, unfolding(steps::specs::Pieces::plain, grammar::specs::Characters::lead1, grammar::specs::Bytes::blank, grammar::specs::Bytes::special))]
pub fn is_plain(b: u8) -> bool
    ensures { result ≡ plain b }
{
    (((b == b' ') | ((b == b'\t') | ((b == b'\n') | (b == b'\r')))) | ((32 <= b) & (b <= 127)))
        & (!((b == b'<') | (b == b'&')) & !(b == b']'))
}

// Where plain bytes end: by blocks, and one by one behind the last block.
fn far_plain_end(text: &[u8], at: usize) -> usize
    ensures { Some result ≡ stepped (length text.now) (span plain (drop at text.now)) }
{
    for i in past_quick(text, at)..text.len() {
        if !is_plain(text[i]) {
            return i;
        }
    }
    text.len()
}

// Where plain bytes end. The first sixteen are read one by one: most texts are short, and blocks would cost more.
pub fn plain_end(text: &[u8], at: usize) -> usize
    ensures { Some result ≡ stepped (length text.now) (span plain (drop at text.now)) }
{
    let mut i = at;
    // `for i in at..at.saturating_add(16)` with `get` was slower
    for _ in 0..16 {
        if text.len() <= i {
            return text.len();
        }
        if !is_plain(text[i]) {
            return i;
        }
        i += 1;
    }
    far_plain_end(text, i)
}

// What stands at `at`, where no piece does.
fn halt_at(text: &[u8], at: usize) -> Between
    ensures { result ≡ halted (look (drop at text.now)) at }
{
    match front_at(text, at) {
        Front::Close => Between::Close(at),
        Front::Start => Between::Start(at),
        Front::Comment | Front::Data | Front::Text => Between::Bad,
    }
}

// Characters, comments and CDATA, as far as they go.
pub fn between_end(text: &[u8], at: usize) -> Between
    ensures { result ≡ stopped_by (length text.now) (pieces_at (drop at text.now)) }
{
    let mut i = at;
    loop {
        let j = plain_end(text, i);
        let Some(k) = piece_end(text, j) else {
            return halt_at(text, j);
        };
        i = k;
    }
}
