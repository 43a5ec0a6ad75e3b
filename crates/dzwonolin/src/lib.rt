// The library for C: include/dzwonolin.h says what each function takes and gives. A slice is a pointer and the number of its elements.
// Here are the doors of texts and files, which dzwonolin_c exports to C. Those that need no text are in record_doors and record_doors_c;
// ./library puts both into one library.
// All names of a map.
#![tactic(auto)]

mod names;
// Labels.
mod label_doors;
// GIFTI label files.
mod label_files;

ghost use Rattle.dzwonolin.specs.Promises.{ReadsFlat, NamesFlat, ReadsFileFlat, FileNamesFlat};

use flat::{tell_answer, tell_two};
pub use label_doors::{dz_label_keys, dz_label_name};
pub use label_files::dz_gifti_keys;
pub use names::dz_map_names;
use reader::map_name_place;
use records::Index;

pub fn dz_read(
    text: &[u8],
    lengths: &[u64],
    records: &mut [u64],
    work: &mut [u64],
    answer: &mut [u64],
) -> u64
    ensures { ReadsFlat text.now lengths.now records.old work.old
        answer.old result records.new work.new answer.new }
{
    let said = reader::read(text, lengths, records, work);
    tell_answer(answer, said);
    said.number
}

pub fn dz_map_name(
    text: &[u8],
    lengths: &[u64],
    dimension: u64,
    index: u64,
    part: &mut [u64],
) -> u64
    ensures { NamesFlat text.now lengths.now dimension index part.old result part.new }
{
    let place = map_name_place(text, lengths, dimension, Index(index));
    tell_two(part, place.start as u64, place.length as u64);
    place.number
}

pub fn dz_read_file(file: &[u8], records: &mut [u64], work: &mut [u64], answer: &mut [u64]) -> u64
    ensures { ReadsFileFlat file.now records.old work.old answer.old result
        records.new work.new answer.new }
{
    let filed = file_reader::read_file(file, records, work);
    tell_answer(answer, filed);
    filed.number
}

pub fn dz_file_map_name(file: &[u8], dimension: u64, index: u64, part: &mut [u64]) -> u64
    ensures { FileNamesFlat file.now dimension index part.old result part.new }
{
    let name = file_reader::file_map_name_place(file, dimension, Index(index));
    tell_two(part, name.start as u64, name.length as u64);
    name.number
}
