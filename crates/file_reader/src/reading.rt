// The table of a file, or the one right refusal: 20 to 23, then those of the read.
ghost use Rattle.std.specs.Prelude.{◌≤◌, length, take};
ghost use Rattle.cifti.specs.Answer.{Reads};
ghost use Rattle.file_reader.specs.Whole.{ReadsFile};

use super::given::handed_on;
use answers::refused;
use cifti::Answer;
use front::front;
use reader::read;
use repeats::clear;

fn read_so(
    text: &[u8],
    lengths: &[u64],
    count: usize,
    records: &mut [u64],
    work: &mut [u64],
) -> Answer
    requires { count ≤ length lengths.now }
    ensures { Reads text.now (take count lengths.now) records.old work.old result
        records.new work.new }
{
    read(text, &lengths[..count], records, work)
}

pub fn read_file(file: &[u8], records: &mut [u64], work: &mut [u64]) -> Answer
    ensures { ReadsFile file.now records.old work.old result records.new
        work.new }
{
    let said = front(file);
    let number = said.number;
    if number != 0 {
        clear(work);
        return refused(number);
    }
    let from = said.start;
    let to = from + said.length;
    let lengths = handed_on(said);
    read_so(
        &file[from..to],
        &lengths,
        said.count as usize,
        records,
        work,
    )
}
