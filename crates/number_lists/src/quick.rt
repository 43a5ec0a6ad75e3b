// The next number of a list where one plain blank, one to six plain digits and a plain blank write it: most numbers stand so.
ghost use Rattle.std.specs.Prelude.{◌≡◌, ◌+◌, ◌*◌};
ghost use Rattle.numbers.specs.Stream.{Few};
ghost use Rattle.numbers.specs.Quick.{space_or_feed, FromZero, SixAhead, Six, Quick};
ghost use Rattle.numbers.specs.Answers.{next_number};

use super::listed::{any_number, eight_left, run_of};
use numbers::{Next, Run};

// How far a byte is above '0', round 256: 9 at most where it is a digit, and then the digit's value.
fn from_zero(b: u8) -> u64
    ensures { FromZero b result }
{
    (u64::from(b) + 208) % 256
}

// The plain digits at `at`, six at most. The loop counts to six, so that it is unrolled.
fn six_digits(text: &[u8], at: usize) -> Run
    requires { SixAhead text.now at }
    ensures { Six text.now at result }
{
    let mut n: u64 = 0;
    for k in 0..6 {
        let d = from_zero(text[at + k]);
        if 9 < d {
            return run_of(n, at, at + k);
        }
        n = n * 10 + d;
    }
    run_of(n, at, at + 6)
}

// A space or a line feed, the blanks that stand between most numbers; the space is a branch of its own.
fn is_space_or_feed(b: u8) -> bool
    ensures { result ≡ space_or_feed b }
{
    if b == b' ' {
        return true;
    }
    b == b'\n'
}

// The value of the digits, and how many they are with the blank before them, in one number.
fn packed(run: Run) -> u64
    requires { Few run }
    ensures { result ≡ run.value * 16 + (run.count + 1) }
{
    run.value * 16 + (run.count + 1)
}

// The next number where a space or a line feed, plain digits and such a blank stand at `at`: sixteen times its value, and how far the
// place behind it is from `at`. 0 where they do not.
pub fn quick_number(text: &[u8], at: usize) -> u64
    ensures { Quick text.now at result }
{
    if eight_left(text) <= at || !is_space_or_feed(text[at]) {
        return 0;
    }
    let run = six_digits(text, at + 1);
    if run.count == 0 || !is_space_or_feed(text[run.next]) {
        return 0;
    }
    packed(run)
}

// The next number of the list in a text, from `at` on.
pub fn next_number(text: &[u8], at: usize) -> Next
    ensures { result ≡ next_number text.now at }
{
    let quick = quick_number(text, at);
    if quick == 0 {
        return any_number(text, at);
    }
    Next::Number(quick / 16, at + (quick % 16) as usize)
}
