// Decoded bytes, from a value or from a text; digits and blanks in a row.
ghost use Rattle.std.specs.Prelude.{◌≡◌, ◌+◌, ◌-◌, ◌^◌, ◌<◌, ◌≤◌};
ghost use Rattle.grammar.specs.Bytes.{blank};
ghost use Rattle.numbers.specs.Numbers.{with_sign};
ghost use Rattle.numbers.specs.Stream.{letter_at, char_at, stream, word_ends, digits_at, behind, leading};
ghost use Rattle.numbers.specs.Answers.{sign_if};
ghost use Rattle.numbers.specs.Read.{Running};
ghost use Rattle.numbers.specs.declared.Source.TheVariants.{Contents, Value};
ghost use Rattle.number_lists.specs.Digits.{plain_digit};
ghost use Rattle.number_lists.specs.Letters.{odd};

use nodes::Text;
use numbers::{Run, Source};

// A byte that may read as something else than itself.
#[tactic(auto, unfolding(crate::specs::Letters::odd, grammar::specs::Bytes::special))]
fn is_odd(b: u8) -> bool
    ensures { result ≡ odd b }
{
    matches!(b, b'<' | b'&' | b'\r')
}

// The next decoded byte of a text: comments and children are passed over. Not inlined into `letter`, so that `letter` is small.
#[inline(never)]
#[tactic(auto, using(numbers::proofs::Laws::Read::seeking))]
fn any_letter(text: &[u8], at: usize) -> Option<(u8, usize)>
    ensures { result ≡ letter_at text.now at }
{
    let mut i = at;
    loop {
        match inside::texts::text_at(text, i) {
            Text::Letter(b, j) => {
                return Some((b, j));
            }
            Text::Skip(j) => {
                i = j;
            }
            Text::Stop => {
                return None;
            }
        }
    }
}

// The same, quick where the byte reads as itself.
pub fn letter(text: &[u8], at: usize) -> Option<(u8, usize)>
    ensures { result ≡ letter_at text.now at }
{
    match text.get(at) {
        Some(&b) if !is_odd(b) => Some((b, at + 1)),
        _ => any_letter(text, at),
    }
}

// The next decoded byte.
#[tactic(auto, using(numbers::proofs::Laws::Read::choosing))]
pub fn char_at(text: &[u8], at: usize, source: Source) -> Option<(u8, usize)>
    ensures { result ≡ char_at source text.now at }
{
    match source {
        Source::Value(q) => inside::values::decoded(text, at, q),
        Source::Contents => letter(text, at),
    }
}

// A digit that reads as itself in a value between two quotes.
#[tactic(auto, unfolding(crate::specs::Digits::plain_digit, numbers::specs::Numbers::digit, grammar::specs::Bytes::between))]
fn is_plain_digit(b: u8, quote: u8) -> bool
    ensures { result ≡ plain_digit quote b }
{
    b.is_ascii_digit() && b != quote
}

// The plain digits at `at` in a value, as far as they go.
fn plain_digits(text: &[u8], at: usize, quote: u8, most: u64, before: u64) -> Run
    requires { (most ≤ 15) × (before < 10 ^ (15 - most)) }
    ensures { Running (Value quote) text.now most before at result.value result.count result.next }
{
    let mut n = before;
    let mut i = at;
    for k in 0..most {
        match text.get(i) {
            Some(&b) if is_plain_digit(b, quote) => {
                n = n * 10 + u64::from(b - b'0');
                i += 1;
            }
            _ => {
                return Run {
                    value: n,
                    count: k,
                    next: i,
                };
            }
        }
    }
    Run {
        value: n,
        count: most,
        next: i,
    }
}

// The same of any source; none of a text, whose numbers have a quick reader of their own.
fn first_digits(text: &[u8], at: usize, source: Source, most: u64, before: u64) -> Run
    requires { (most ≤ 15) × (before < 10 ^ (15 - most)) }
    ensures { Running source text.now most before at result.value result.count result.next }
{
    match source {
        Source::Value(q) => plain_digits(text, at, q, most, before),
        Source::Contents => Run {
            value: before,
            count: 0,
            next: at,
        },
    }
}

// The digits at `at`, at most so many, behind those that write `before`.
pub fn digits(text: &[u8], at: usize, source: Source, most: u64, before: u64) -> Run
    requires { (most ≤ 15) × (before < 10 ^ (15 - most)) }
    ensures { result ≡ digits_at source text.now most before 0 at }
{
    let first = first_digits(text, at, source, most, before);
    let mut n = first.value;
    let mut i = first.next;
    for k in first.count..most {
        match char_at(text, i, source) {
            Some((b, j)) if b.is_ascii_digit() => {
                n = n * 10 + u64::from(b - b'0');
                i = j;
            }
            _ => {
                return Run {
                    value: n,
                    count: k,
                    next: i,
                };
            }
        }
    }
    Run {
        value: n,
        count: most,
        next: i,
    }
}

// A word ends at `at`: there is no more, or a blank.
pub fn word_ends(text: &[u8], at: usize, source: Source) -> bool
    ensures { result ≡ word_ends (stream source text.now at) }
{
    match char_at(text, at, source) {
        Some((b, _)) => letters::classes::is_blank(b),
        None => true,
    }
}

// The place behind the blanks at `at`.
#[tactic(auto, using(numbers::proofs::Laws::Read::passing))]
pub fn blanks(text: &[u8], at: usize) -> usize
    ensures { result ≡ behind Contents text.now (leading blank (stream Contents text.now at)) at }
{
    let mut i = at;
    loop {
        match letter(text, i) {
            Some((b, j)) if letters::classes::is_blank(b) => {
                i = j;
            }
            _ => {
                return i;
            }
        }
    }
}
