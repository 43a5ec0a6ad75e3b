// Two or three lengths, whole numbers with commas between them.
ghost use Rattle.std.specs.Prelude.{◌≡◌};
ghost use Rattle.numbers.specs.Numbers.{parts, comma};
ghost use Rattle.input.specs.Lengths.{wholes_of, lengths_in, first_by};
ghost use Rattle.input.specs.Parted.{FirstDigit, Ran, LineParted};

#[derive(Clone, Copy)]
pub enum FirstLine {
    Two(u64, u64),
    Three(u64, u64, u64),
    // Bad form, or another count of lengths.
    Other,
}

// Digits in a row: what they write, how many they are, the place behind them.
#[derive(Drop)]
struct Run {
    value: u64,
    count: u64,
    next: usize,
}

// A number among commas: with the place behind its comma, or the last.
#[derive(Drop)]
enum Part {
    Comma(u64, usize),
    Last(u64),
    No,
}

// The digit at `at`; 10 where none stands there.
fn digit_at(word: &[u8], at: usize) -> u64
    ensures { FirstDigit word.now at result }
{
    if word.len() <= at {
        return 10;
    }
    let b = word[at];
    if b < b'0' {
        return 10;
    }
    if b'9' < b {
        return 10;
    }
    (b - b'0') as u64
}

// The digits at `at`, at most seven.
fn digits_at(word: &[u8], at: usize) -> Run
    ensures { Ran word.now at result }
{
    let mut n: u64 = 0;
    let mut k: u64 = 0;
    let mut i = at;
    while k < 7 {
        let d = digit_at(word, i);
        if 9 < d {
            return Run {
                value: n,
                count: k,
                next: i,
            };
        }
        n = n * 10 + d;
        k += 1;
        i += 1;
    }
    Run {
        value: n,
        count: k,
        next: i,
    }
}

// The number at `at` up to a comma or the end.
fn part_at(word: &[u8], at: usize) -> Part
    ensures { LineParted word.now at result }
{
    let run = digits_at(word, at);
    let j = run.next;
    if run.count == 0 {
        return Part::No;
    }
    if word.len() <= j {
        return Part::Last(run.value);
    }
    if word[j] == b',' {
        return Part::Comma(run.value, j + 1);
    }
    Part::No
}

fn lengths_in(word: &[u8]) -> FirstLine
    ensures { result ≡ first_by (wholes_of (parts comma word.now)) }
{
    match part_at(word, 0) {
        Part::Comma(a, second) => match part_at(word, second) {
            Part::Comma(b, third) => match part_at(word, third) {
                Part::Last(c) => FirstLine::Three(a, b, c),
                Part::Comma(_, _) => FirstLine::Other,
                Part::No => FirstLine::Other,
            },
            Part::Last(b) => FirstLine::Two(a, b),
            Part::No => FirstLine::Other,
        },
        Part::Last(_) => FirstLine::Other,
        Part::No => FirstLine::Other,
    }
}

// The lengths that the line writes, with its line feed.
pub fn first_line(line: &[u8]) -> FirstLine
    ensures { result ≡ first_by (lengths_in line.now) }
{
    if line.len() == 0 {
        return FirstLine::Other;
    }
    let last = line.len() - 1;
    if line[last] != b'\n' {
        return FirstLine::Other;
    }
    lengths_in(&line[..last])
}
