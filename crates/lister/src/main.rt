// The morning card: the lengths and a header text on standard input, the table of locations or the refusal on standard output.
#![tactic(auto)]

// What is answered to the first line and the text behind it.
mod decision;

ghost use Rattle.std.specs.Prelude.{◌≡◌, false};
ghost use Rattle.std.specs.Io.KnownBytes.{Appends};
ghost use Rattle.card.specs.Card.{card_lines};
ghost use Rattle.card.specs.Written.{card_bytes};

use cifti::Answer;
use input::{read_line, read_past};
use std::io::Write;

// How many lines were written, or that a write failed.
#[derive(Drop)]
struct Printed {
    lines: usize,
    failed: bool,
}

// Every line of the card, unless a write fails.
fn print_card<W: Write>(to: &mut W, answer: Answer, records: &[u64]) -> Printed
    ensures lines { result.failed ≡ false → result.lines ≡ card_lines answer records.now }
    ensures bytes { result.failed ≡ false → Appends (W.contents to.old) (W.contents to.new) (card_bytes answer records.now) }
{
    let count = card::line_count(answer, records);
    let mut n = 0;
    while n < count {
        let mut bytes = [0u8; 128];
        let size = card::write_line(card::line_at(answer, records, n), &mut bytes);
        if to.write_all(&bytes[..size]).is_err() {
            return Printed {
                lines: n,
                failed: true,
            };
        }
        n += 1;
    }
    Printed {
        lines: n,
        failed: false,
    }
}

fn fail<W: Write>(to: &mut W) {
    let _ = to.write_all(b"lister: reading or writing failed\n");
}

fn main(rt: HostRuntime) {
    let mut line = [0u8; 24];
    let mut text = [0u8; 32768];
    let mut records = [0u64; 2048];
    let mut work = [0u64; 2048];
    let mut from = rt.stdin();
    let mut to = rt.stdout();
    let mut told = rt.stderr();
    let first = read_line(&mut from, &mut line);
    let body = read_past(&mut from, &mut text);
    if first.failed | body.failed {
        fail(&mut told);
        return;
    }
    let before = first.count;
    let answer = decision::decide(&line[..before], &text, body.count, &mut records, &mut work);
    let printed = print_card(&mut to, answer, &records);
    if printed.failed {
        fail(&mut told);
    }
}
