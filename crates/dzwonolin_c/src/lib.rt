// The doors of dzwonolin, for C: include/dzwonolin.h says what each takes and gives. A slice is a pointer and the number of its elements.
// ./library puts these and those of record_doors_c into one library.
#![tactic(auto)]

ghost use Rattle.dzwonolin.specs.Promises.{ReadsFlat, NamesFlat, ReadsFileFlat, FileNamesFlat};
ghost use Rattle.dzwonolin.specs.AllNames.{MapNamesFlat};
ghost use Rattle.dzwonolin.specs.Labels.{KeysFlat, LabelsFlat};
ghost use Rattle.dzwonolin.specs.Gifti.{GiftiFlat};

#[unsafe(no_mangle)]
pub extern "C" fn dz_read(
    text: &[u8],
    lengths: &[u64],
    records: &mut [u64],
    work: &mut [u64],
    answer: &mut [u64],
) -> u64
    ensures { ReadsFlat text.now lengths.now records.old work.old
        answer.old result records.new work.new answer.new }
{
    dzwonolin::dz_read(text, lengths, records, work, answer)
}

#[unsafe(no_mangle)]
pub extern "C" fn dz_map_name(
    text: &[u8],
    lengths: &[u64],
    dimension: u64,
    index: u64,
    part: &mut [u64],
) -> u64
    ensures { NamesFlat text.now lengths.now dimension index part.old result part.new }
{
    dzwonolin::dz_map_name(text, lengths, dimension, index, part)
}

#[unsafe(no_mangle)]
pub extern "C" fn dz_read_file(
    file: &[u8],
    records: &mut [u64],
    work: &mut [u64],
    answer: &mut [u64],
) -> u64
    ensures { ReadsFileFlat file.now records.old work.old answer.old result
        records.new work.new answer.new }
{
    dzwonolin::dz_read_file(file, records, work, answer)
}

#[unsafe(no_mangle)]
pub extern "C" fn dz_file_map_name(file: &[u8], dimension: u64, index: u64, part: &mut [u64]) -> u64
    ensures { FileNamesFlat file.now dimension index part.old result part.new }
{
    dzwonolin::dz_file_map_name(file, dimension, index, part)
}

#[unsafe(no_mangle)]
pub extern "C" fn dz_map_names(
    text: &[u8],
    lengths: &[u64],
    dimension: u64,
    places: &mut [u64],
    count: &mut [u64],
) -> u64
    ensures { MapNamesFlat text.now lengths.now dimension places.old count.old result
        places.new count.new }
{
    dzwonolin::dz_map_names(text, lengths, dimension, places, count)
}

#[unsafe(no_mangle)]
pub extern "C" fn dz_label_keys(
    text: &[u8],
    lengths: &[u64],
    dimension: u64,
    index: u64,
    keys: &mut [i32],
    count: &mut [u64],
) -> u64
    ensures { KeysFlat text.now lengths.now dimension index keys.old count.old result
        keys.new count.new }
{
    dzwonolin::dz_label_keys(text, lengths, dimension, index, keys, count)
}

#[unsafe(no_mangle)]
pub extern "C" fn dz_label_name(
    text: &[u8],
    lengths: &[u64],
    dimension: u64,
    index: u64,
    key: i32,
    part: &mut [u64],
) -> u64
    ensures { LabelsFlat text.now lengths.now dimension index key part.old result
        part.new }
{
    dzwonolin::dz_label_name(text, lengths, dimension, index, key, part)
}

#[unsafe(no_mangle)]
pub extern "C" fn dz_gifti_keys(text: &[u8], array: u64, keys: &mut [i32], count: &mut [u64]) -> u64
    ensures { GiftiFlat text.now array keys.old count.old result keys.new
        count.new }
{
    dzwonolin::dz_gifti_keys(text, array, keys, count)
}
