// The lines of a document, in the order of its text. Every turn of a loop passes at least one byte, so there are never more turns than
// bytes.
use super::lines::Lines;
use elements::scan::{past_tag, tag_end};
use heads::attributes::key_at;
use heads::values::value_end;
use inside::texts::text_at;
use inside::values::decoded;
use letters::blanks::tag_ends;
use letters::names::name_end;
use markup::pieces::front_at;
use nodes::Text;
use nodes::scan::Tag;
use steps::attributes::Key;
use steps::pieces::Front;

// Where the text goes on, how many elements are open, and whether a run is.
#[derive(Clone, Copy)]
struct State {
    at: usize,
    open: usize,
    run: bool,
}

// The decoded bytes of the value at `at`.
fn put_value(out: &mut Lines, text: &[u8], at: usize) {
    if text.len() <= at {
        return;
    }
    let q = text[at];
    let mut i = at + 1;
    for _ in 0..text.len() {
        let Some((b, j)) = decoded(text, i, q) else {
            return;
        };
        out.put_hex(b);
        i = j;
    }
}

// The line of an attribute: where its name stands, and where its value begins.
fn put_attribute(out: &mut Lines, text: &[u8], key: Key) {
    out.put(b'@');
    out.put_all(text.get(key.from..key.to).unwrap_or(&[]));
    out.put(b' ');
    put_value(out, text, key.end);
    out.put(b'\n');
}

// A line for each attribute from `at` on.
fn put_attributes(out: &mut Lines, text: &[u8], at: usize) {
    let mut i = at;
    for _ in 0..text.len() {
        if tag_ends(text, i) {
            return;
        }
        let Some(key) = key_at(text, i) else {
            return;
        };
        put_attribute(out, text, key);
        i = value_end(text, key.end).unwrap_or(text.len());
    }
}

// The lines of the start tag at `at`.
fn put_start(out: &mut Lines, text: &[u8], at: usize) {
    if text.len() <= at {
        return;
    }
    out.put(b'<');
    if let Some(j) = name_end(text, at + 1) {
        out.put_all(text.get(at + 1..j).unwrap_or(&[]));
        out.put(b'\n');
        put_attributes(out, text, j);
    }
}

// A run that is open ends here.
fn put_stop(out: &mut Lines, run: bool) {
    if run {
        out.put(b'\n');
    }
}

// Over a start tag; the elements that are open are 16 at most.
fn over_start(out: &mut Lines, text: &[u8], s: State) -> Option<State> {
    put_stop(out, s.run);
    put_start(out, text, s.at);
    let mut open = s.open;
    let at = match tag_end(text, s.at)? {
        Tag::Open(j) => {
            if open < 16 {
                open += 1;
            }
            j
        }
        Tag::Bare(j) => {
            out.put_all(b">\n");
            j
        }
    };
    Some(State {
        at,
        open,
        run: false,
    })
}

// Over an end tag.
fn over_end(out: &mut Lines, text: &[u8], s: State) -> Option<State> {
    put_stop(out, s.run);
    out.put_all(b">\n");
    Some(State {
        at: past_tag(text, s.at)?,
        open: s.open.saturating_sub(1),
        run: false,
    })
}

// Over a character, a comment or a mark of CDATA; a run begins where none is open.
fn over_text(out: &mut Lines, text: &[u8], s: State) -> Option<State> {
    match text_at(text, s.at) {
        Text::Letter(b, j) => {
            if !s.run {
                out.put(b'#');
            }
            out.put_hex(b);
            Some(State {
                at: j,
                open: s.open,
                run: true,
            })
        }
        Text::Skip(j) => Some(State {
            at: j,
            open: s.open,
            run: s.run,
        }),
        Text::Stop => None,
    }
}

// Over what stands next. A place behind the end of the text is within CDATA.
fn over(out: &mut Lines, text: &[u8], s: State) -> Option<State> {
    if text.len() < s.at {
        return over_text(out, text, s);
    }
    match front_at(text, s.at) {
        Front::Start => over_start(out, text, s),
        Front::Close => over_end(out, text, s),
        Front::Comment | Front::Data | Front::Text => over_text(out, text, s),
    }
}

// The lines of the element at `root`.
pub fn outlined(out: &mut Lines, text: &[u8], root: usize) {
    let mut s = State {
        at: root,
        open: 0,
        run: false,
    };
    for _ in 0..text.len() {
        match over(out, text, s) {
            Some(next) => s = next,
            None => return,
        }
        if s.open == 0 {
            return;
        }
    }
}
