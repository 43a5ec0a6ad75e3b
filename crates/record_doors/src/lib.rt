// The doors for C that read no text: records and sheets, the short list as four numbers a model, two sheets side by side, and where the
// text of a file is. record_doors_c exports them to C.
// include/dzwonolin.h says what each takes and gives. A slice is a pointer and the number of its elements.
#![tactic(auto)]

// The short list made.
mod making;
// The short list asked.
mod asking;

ghost use Rattle.record_doors.specs.Promises.{FindsFlat, PacksFlat, UnpacksFlat};
ghost use Rattle.record_doors.specs.Lists.{ListsFlat, TellsFlat, SeeksFlat};
ghost use Rattle.record_doors.specs.Sides.{ComparesFlat, TailsFlat};
ghost use Rattle.record_doors.specs.Front.{FrontsFlat};

use asking::{index_in, structure_in};
use flat::{tell_one, tell_row, tell_two};
use making::list_numbers;
use records::Index;

pub fn dz_find(records: &[u64], number: u64, place: &mut [u64]) -> u64
    ensures { FindsFlat records.now number place.old result place.new }
{
    let found = record_fields::find(records, number);
    tell_one(place, found.place.0 as u64);
    found.number
}

pub fn dz_pack(records: &[u64], sheet: &mut [u8], count: &mut [u64]) -> u64
    ensures { PacksFlat records.now sheet.old count.old result sheet.new
        count.new }
{
    let packed = sheets::pack(records, sheet);
    tell_one(count, packed.value);
    packed.number
}

pub fn dz_unpack(sheet: &[u8], records: &mut [u64], count: &mut [u64]) -> u64
    ensures { UnpacksFlat sheet.now records.old count.old result records.new
        count.new }
{
    let unpacked = sheets::unpack(sheet, records);
    tell_one(count, unpacked.value);
    unpacked.number
}

// ---- The short list: four numbers a model.

pub fn dz_model_list(records: &[u64], list: &mut [u64], count: &mut [u64]) -> u64
    ensures { ListsFlat records.now list.old count.old result list.new
        count.new }
{
    match list_numbers(records, list) {
        Ok(models) => {
            tell_one(count, models as u64);
            0
        }
        Err(list_fault) => {
            tell_one(count, 0);
            list_fault.number()
        }
    }
}

pub fn dz_structure_at(list: &[u64], index: u64, answer: &mut [u64]) -> u64
    ensures { TellsFlat list.now index answer.old result answer.new }
{
    match structure_in(list, Index(index)) {
        Ok(told) => {
            tell_two(answer, u64::from(told.voxels), told.structure);
            0
        }
        Err(fault) => {
            tell_two(answer, 0, 0);
            fault.number()
        }
    }
}

pub fn dz_index_of(list: &[u64], records: &[u64], number: u64, place: &mut [u64]) -> u64
    ensures { SeeksFlat list.now records.now number place.old result place.new }
{
    match index_in(list, records, number) {
        Ok(index) => {
            tell_one(place, index.0);
            0
        }
        Err(fault) => {
            tell_one(place, 0);
            fault.number()
        }
    }
}

// ---- Two sheets side by side.

pub fn dz_compare(first: &[u8], second: &[u8], work: &mut [u64], counts: &mut [u64]) -> u64
    ensures { ComparesFlat first.now second.now work.old counts.old result
        work.new counts.new }
{
    let compared = compare::compare(first, second, work);
    let row = [
        compared.same as u64,
        compared.moved as u64,
        compared.first as u64,
        compared.second as u64,
    ];
    tell_row(counts, &row);
    compared.number
}

pub fn dz_tail(first: &[u8], second: &[u8], work: &mut [u64], part: &mut [u64]) -> u64
    ensures { TailsFlat first.now second.now work.old part.old result work.new
        part.new }
{
    let cut = compare::tail_place(first, second, work);
    tell_row(part, &[cut.sheet, cut.start as u64, cut.length as u64]);
    cut.number
}

// ---- Where the text of a file is.

pub fn dz_front(file: &[u8], front: &mut [u64]) -> u64
    ensures { FrontsFlat file.now front.old result front.new }
{
    let placed = front::front(file);
    let lengths = placed.lengths;
    let row = [
        placed.count,
        lengths[0],
        lengths[1],
        lengths[2],
        placed.start as u64,
        placed.length as u64,
    ];
    tell_row(front, &row);
    placed.number
}
