// Two sheets end to end on standard input; what changed from the first to the second, a line each, on standard output.
#![tactic(auto)]

// The bytes of a line.
mod change_text;

ghost use Rattle.std.specs.Prelude.{◌≡◌, false, ◌+◌, ◌≤◌, length};
ghost use Rattle.std.specs.Io.KnownBytes.{Appends};
ghost use Rattle.comparison.specs.Compare.{records_of, compare_refusal};
ghost use Rattle.comparer.specs.Output.{output_bytes, refusal_bytes, program_bytes};

use card::Line;
use input::read_bytes;
use std::io::Write;

// How many bytes were written, or that a write failed.
#[derive(Drop)]
struct Printed {
    bytes: usize,
    failed: bool,
}

fn print_refusal<W: Write>(to: &mut W, number: u64) -> Printed
    ensures count { result.failed ≡ false → result.bytes ≡ length (refusal_bytes number) }
    ensures bytes { result.failed ≡ false → Appends (W.contents to.old) (W.contents to.new) (refusal_bytes number) }
{
    let mut bytes = [0u8; 128];
    let size = card::write_line(Line::Refused(number), &mut bytes);
    let failed = to.write_all(&bytes[..size]).is_err();
    Printed {
        bytes: size,
        failed: failed,
    }
}

// The lines of the indices of the first, and then of the second. Every line fits 128 bytes (`line_fits`).
fn print_lines<W: Write>(to: &mut W, first: &[u64], second: &[u64]) -> Printed
    requires { length first.now + length second.now ≤ 13104 }
    ensures count { result.failed ≡ false → result.bytes ≡ length (output_bytes first.now second.now) }
    ensures bytes { result.failed ≡ false → Appends (W.contents to.old) (W.contents to.new) (output_bytes first.now second.now) }
{
    let count = first.len() + second.len();
    let mut n = 0;
    let mut written = 0;
    while n < count {
        let mut bytes = [0u8; 128];
        let size = change_text::write_change(first, second, n, &mut bytes);
        if to.write_all(&bytes[..size]).is_err() {
            return Printed {
                bytes: written,
                failed: true,
            };
        }
        written += size;
        n += 1;
    }
    Printed {
        bytes: written,
        failed: false,
    }
}

// How many records came, and at most as many as there is room for.
fn within(count: u64) -> usize
    ensures { (result ≤ 6552) × (count ≤ 6552 → result ≡ count) }
{
    if count <= 6_552 {
        count as usize
    } else {
        6_552
    }
}

// Of two sheets that are not refused.
fn print_both<W: Write>(to: &mut W, first: &[u8], second: &[u8]) -> Printed
    requires { compare_refusal first.now second.now 6552 ≡ 0 }
    ensures count { result.failed ≡ false
        → result.bytes ≡ length (output_bytes (records_of first.now) (records_of second.now)) }
    ensures bytes { result.failed ≡ false
        → Appends (W.contents to.old) (W.contents to.new) (output_bytes (records_of first.now) (records_of second.now)) }
{
    let mut a = [0u64; 6552];
    let mut b = [0u64; 6552];
    let one = sheets::unpack(first, &mut a);
    let two = sheets::unpack(second, &mut b);
    let n = within(one.value);
    let m = within(two.value);
    print_lines(to, &a[..n], &b[..m])
}

fn print_answer<W: Write>(to: &mut W, input: &[u8]) -> Printed
    requires { length input.now ≤ 32768 }
    ensures count { result.failed ≡ false → result.bytes ≡ length (program_bytes input.now) }
    ensures bytes { result.failed ≡ false → Appends (W.contents to.old) (W.contents to.new) (program_bytes input.now) }
{
    let mut work = [0u64; 6552];
    let end = compare::first_end(input);
    let answer = compare::compare(&input[..end], &input[end..], &mut work);
    if answer.number != 0 {
        return print_refusal(to, answer.number);
    }
    print_both(to, &input[..end], &input[end..])
}

fn fail<W: Write>(to: &mut W) {
    let _ = to.write_all(b"comparer: reading or writing failed\n");
}

fn main(rt: HostRuntime) {
    let mut input = [0u8; 32769];
    let mut from = rt.stdin();
    let mut to = rt.stdout();
    let mut told = rt.stderr();
    let came = read_bytes(&mut from, &mut input);
    if came.failed {
        fail(&mut told);
        return;
    }
    let count = came.count;
    let printed = if count <= 32_768 {
        print_answer(&mut to, &input[..count])
    } else {
        print_refusal(&mut to, 15)
    };
    if printed.failed {
        fail(&mut told);
    }
}
