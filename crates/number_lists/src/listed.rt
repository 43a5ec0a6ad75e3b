// The next number of a list: plain bytes first, whatever else then.
ghost use Rattle.std.specs.Prelude.{◌≡◌, ◌-◌, ◌<◌, ◌≤◌, length, get_or};
ghost use Rattle.grammar.specs.Bytes.{blank};
ghost use Rattle.numbers.specs.Stream.{digits_at, Few, Stops, DigitsBegun, EightLeft, run_of};
ghost use Rattle.numbers.specs.declared.Source.TheVariants.{Contents};
ghost use Rattle.numbers.specs.Answers.{next_number};
ghost use Rattle.number_lists.specs.Within.{Blanks, Digits};

use super::chars::{blanks, digits, letter, word_ends};
use super::within::late_number;
use numbers::{Next, Run, Source};

// The place behind the plain blanks at `at`, those that stand in the text as they are; none from `last` on is looked at.
pub(crate) fn plain_blanks(text: &[u8], at: usize, last: usize) -> usize
    requires { last ≤ length text.now }
    ensures { Blanks text.now at result }
{
    for i in at..last {
        if !letters::classes::is_blank(text[i]) {
            return i;
        }
    }
    at.max(last)
}

// The place behind seven bytes from `at` on, nearer where the text ends.
pub(crate) fn seven_on(text: &[u8], at: usize) -> usize
    ensures { Stops text.now at result }
{
    at.saturating_add(7).min(text.len())
}

// The plain digits at `at`, up to `stop`.
pub(crate) fn plain_digits(text: &[u8], at: usize, stop: usize) -> Run
    requires { Stops text.now at stop }
    ensures { Digits text.now at stop result }
{
    let mut n: u64 = 0;
    for i in at..stop {
        let b = text[i];
        if !b.is_ascii_digit() {
            return run_of(n, at, i);
        }
        n = n * 10 + u64::from(b - b'0');
    }
    run_of(n, at, at.max(stop))
}

pub(crate) fn run_of(n: u64, at: usize, next: usize) -> Run
    requires { at ≤ next }
    ensures { result ≡ run_of n at next }
{
    Run {
        value: n,
        count: (next - at) as u64,
        next: next,
    }
}

// A plain blank stands behind the digits.
fn ends_plain(text: &[u8], run: Run) -> bool
    requires { run.next < length text.now }
    ensures { result ≡ blank (get_or text.now run.next 0) }
{
    letters::classes::is_blank(text[run.next])
}

// The digits that were read and those behind them, whatever stands between; 7 in all.
fn all_digits(text: &[u8], run: Run) -> Run
    requires { Few run }
    ensures { result ≡ digits_at Contents text.now (7 - run.count) run.value run.count run.next }
{
    let more = digits(text, run.next, Source::Contents, 7 - run.count, run.value);
    Run {
        value: more.value,
        count: run.count + more.count,
        next: more.next,
    }
}

// The number at `at`, whose digits up to `next` write `value`, whatever stands between those behind them.
fn number_from(text: &[u8], at: usize, value: u64, next: usize) -> Next
    requires { DigitsBegun text.now at value next }
    ensures { result ≡ next_number text.now at }
{
    let run = all_digits(text, run_of(value, at, next));
    if run.count == 0 {
        return match letter(text, run.next) {
            Some(_) => Next::Bad,
            None => Next::End,
        };
    }
    if word_ends(text, run.next, Source::Contents) {
        return Next::Number(run.value, run.next);
    }
    Next::Bad
}

// The next number, whatever stands before it.
pub(crate) fn number_at(text: &[u8], at: usize) -> Next
    ensures { result ≡ next_number text.now at }
{
    let i = blanks(text, at);
    let run = plain_digits(text, i, seven_on(text, i));
    number_from(text, i, run.value, run.next)
}

// Up to where eight bytes and more stand ahead.
pub(crate) fn eight_left(text: &[u8]) -> usize
    ensures { EightLeft text.now result }
{
    text.len().saturating_sub(8)
}

// The next number, whatever stands before it or in it: plain bytes first.
pub fn any_number(text: &[u8], at: usize) -> Next
    ensures { result ≡ next_number text.now at }
{
    let last = eight_left(text);
    let i = plain_blanks(text, at, last);
    if last <= i {
        return late_number(text, i);
    }
    let run = plain_digits(text, i, i + 7);
    if run.count == 0 {
        return number_at(text, i);
    }
    if ends_plain(text, run) {
        return Next::Number(run.value, run.next);
    }
    number_from(text, i, run.value, run.next)
}
