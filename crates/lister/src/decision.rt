// A text that is too long, lengths that are wrong, and what `read` answers.
ghost use Rattle.std.specs.Prelude.{◌≤◌, length};
ghost use Rattle.input.specs.Limits.{most_text};
ghost use Rattle.lister.specs.Decision.{Decides, Chooses};

use answers::refused;
use cifti::Answer;
use input::{FirstLine, first_line};
use reader::read;
use repeats::clear;

// With the lengths in good form. A text that is too long is told only where the lengths are right.
fn answered(
    text: &[u8],
    came: usize,
    lengths: &[u64],
    records: &mut [u64],
    work: &mut [u64],
) -> Answer
    requires { most_text ≤ length text.now }
    ensures { Chooses lengths.now text.now came records.old work.old result
        records.new work.new }
{
    if 32_768 < came {
        let bare = read(&text[0..0], lengths, records, work);
        if bare.number == 1 {
            return bare;
        }
        return refused(2);
    }
    read(&text[..came], lengths, records, work)
}

// So many bytes of text came; the buffer holds the first of them, all of those that are taken. How many more came makes no difference
// (`decides_past`).
pub fn decide(
    line: &[u8],
    text: &[u8; 32768],
    came: usize,
    records: &mut [u64],
    work: &mut [u64],
) -> Answer
    ensures { Decides line.now text.now came records.old work.old result
        records.new work.new }
{
    match first_line(line) {
        FirstLine::Two(a, b) => {
            let lengths = [a, b];
            answered(text, came, &lengths, records, work)
        }
        FirstLine::Three(a, b, c) => {
            let lengths = [a, b, c];
            answered(text, came, &lengths, records, work)
        }
        FirstLine::Other => {
            clear(work);
            refused(1)
        }
    }
}
