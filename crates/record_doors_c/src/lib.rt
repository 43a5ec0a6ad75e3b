// The doors of record_doors, for C: include/dzwonolin.h says what each takes and gives. A slice is a pointer and the number of its
// elements. ./library puts these and those of dzwonolin_c into one library.
#![tactic(auto)]

ghost use Rattle.record_doors.specs.Promises.{FindsFlat, PacksFlat, UnpacksFlat};
ghost use Rattle.record_doors.specs.Lists.{ListsFlat, TellsFlat, SeeksFlat};
ghost use Rattle.record_doors.specs.Sides.{ComparesFlat, TailsFlat};
ghost use Rattle.record_doors.specs.Front.{FrontsFlat};

#[unsafe(no_mangle)]
pub extern "C" fn dz_find(records: &[u64], number: u64, place: &mut [u64]) -> u64
    ensures { FindsFlat records.now number place.old result place.new }
{
    record_doors::dz_find(records, number, place)
}

#[unsafe(no_mangle)]
pub extern "C" fn dz_pack(records: &[u64], sheet: &mut [u8], count: &mut [u64]) -> u64
    ensures { PacksFlat records.now sheet.old count.old result sheet.new
        count.new }
{
    record_doors::dz_pack(records, sheet, count)
}

#[unsafe(no_mangle)]
pub extern "C" fn dz_unpack(sheet: &[u8], records: &mut [u64], count: &mut [u64]) -> u64
    ensures { UnpacksFlat sheet.now records.old count.old result records.new
        count.new }
{
    record_doors::dz_unpack(sheet, records, count)
}

#[unsafe(no_mangle)]
pub extern "C" fn dz_model_list(records: &[u64], list: &mut [u64], count: &mut [u64]) -> u64
    ensures { ListsFlat records.now list.old count.old result list.new
        count.new }
{
    record_doors::dz_model_list(records, list, count)
}

#[unsafe(no_mangle)]
pub extern "C" fn dz_structure_at(list: &[u64], index: u64, answer: &mut [u64]) -> u64
    ensures { TellsFlat list.now index answer.old result answer.new }
{
    record_doors::dz_structure_at(list, index, answer)
}

#[unsafe(no_mangle)]
pub extern "C" fn dz_index_of(list: &[u64], records: &[u64], number: u64, place: &mut [u64]) -> u64
    ensures { SeeksFlat list.now records.now number place.old result place.new }
{
    record_doors::dz_index_of(list, records, number, place)
}

#[unsafe(no_mangle)]
pub extern "C" fn dz_compare(
    first: &[u8],
    second: &[u8],
    work: &mut [u64],
    counts: &mut [u64],
) -> u64
    ensures { ComparesFlat first.now second.now work.old counts.old result
        work.new counts.new }
{
    record_doors::dz_compare(first, second, work, counts)
}

#[unsafe(no_mangle)]
pub extern "C" fn dz_tail(first: &[u8], second: &[u8], work: &mut [u64], part: &mut [u64]) -> u64
    ensures { TailsFlat first.now second.now work.old part.old result work.new
        part.new }
{
    record_doors::dz_tail(first, second, work, part)
}

#[unsafe(no_mangle)]
pub extern "C" fn dz_front(file: &[u8], front: &mut [u64]) -> u64
    ensures { FrontsFlat file.now front.old result front.new }
{
    record_doors::dz_front(file, front)
}
