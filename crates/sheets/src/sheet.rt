// Sheets: records packed into bytes, and unpacked.
ghost use Rattle.std.specs.Prelude.{◌≡◌, true, ◌+◌, ◌*◌, ◌≤◌, ◌<◌, length, take, drop};
ghost use Rattle.records.specs.Width.{seven, width_said};
ghost use Rattle.records.specs.Bytes.{bytes_of, body, numbers_in};
ghost use Rattle.records.specs.Fill.{wrote};
ghost use Rattle.records.specs.Sheet.{all_legal, all_good, with_ends, held_by, good_count, bytes_said, sheet_width, count_of, head_of};
ghost use Rattle.records.specs.Sheet.{Packs, Unpacks};

use super::word::{good_word, record_of, wide, word_at};
use record_fields::legal;
use records::{Outcome, Place};

fn good_count(n: usize) -> bool
    ensures { result ≡ good_count n }
{
    1 <= n && n <= 1_048_576
}

fn all_legal(records: &[u64]) -> bool
    ensures { result ≡ all_legal seven records.now }
{
    records.iter().all(|r| legal(*r))
}

fn put_head(sheet: &mut [u8], n: usize)
    requires { 4 ≤ length sheet.old }
    ensures { sheet.new ≡ wrote 0 (head_of 7 n) sheet.old }
{
    sheet[0] = 7;
    sheet[1] = (n / 65_536 % 256) as u8;
    sheet[2] = (n / 256 % 256) as u8;
    sheet[3] = (n % 256) as u8;
}

fn put_word(sheet: &mut [u8], at: usize, word: u64)
    requires { at + 7 ≤ length sheet.old }
    ensures { sheet.new ≡ wrote at (bytes_of 7 word) sheet.old }
{
    sheet[at] = (word / 281_474_976_710_656 % 256) as u8;
    sheet[at + 1] = (word / 1_099_511_627_776 % 256) as u8;
    sheet[at + 2] = (word / 4_294_967_296 % 256) as u8;
    sheet[at + 3] = (word / 16_777_216 % 256) as u8;
    sheet[at + 4] = (word / 65_536 % 256) as u8;
    sheet[at + 5] = (word / 256 % 256) as u8;
    sheet[at + 6] = (word % 256) as u8;
}

fn put_records(sheet: &mut [u8], records: &[u64])
    requires { (4 + 7 * length records.now ≤ length sheet.old) × (all_legal seven records.now ≡ true) }
    ensures { sheet.new ≡ wrote 4 (body 7 (with_ends seven records.now)) sheet.old }
{
    for (i, record) in records.iter().enumerate() {
        put_word(sheet, 4 + 7 * i, *record * 4);
    }
}

// All records go into the sheet, from its start; the value is the bytes written.
pub fn pack(records: &[u64], sheet: &mut [u8]) -> Outcome
    ensures { Packs records.now sheet.old result sheet.new }
{
    let n = records.len();
    if !good_count(n) {
        return Outcome {
            number: 15,
            value: 0,
        };
    }
    if !all_legal(records) {
        return Outcome {
            number: 16,
            value: 0,
        };
    }
    let size = 4 + 7 * n;
    if sheet.len() < size {
        return Outcome {
            number: 17,
            value: 0,
        };
    }
    put_head(sheet, n);
    put_records(sheet, records);
    Outcome {
        number: 0,
        value: size as u64,
    }
}

fn count_at(sheet: &[u8]) -> usize
    requires { 4 ≤ length sheet.now }
    ensures { result ≡ count_of sheet.now }
{
    (wide(sheet[1]) * 65_536 + wide(sheet[2]) * 256 + wide(sheet[3])) as usize
}

// The bytes per record that a first byte says, 5 or 7, else 0.
fn said(b: u8) -> usize
    ensures { result ≡ bytes_said b }
{
    match b {
        5 => 5,
        7 => 7,
        _ => 0,
    }
}

// The bytes per record of a sheet in good form, 5 or 7, else 0.
fn sheet_width(sheet: &[u8]) -> usize
    ensures { result ≡ sheet_width sheet.now }
{
    if sheet.len() < 4 {
        return 0;
    }
    let width = said(sheet[0]);
    if width == 0 {
        return 0;
    }
    let n = count_at(sheet);
    if !good_count(n) {
        return 0;
    }
    if sheet.len() != 4 + width * n {
        return 0;
    }
    width
}

fn all_good(sheet: &[u8], width: usize, n: usize) -> bool
    requires { length sheet.now ≡ 4 + (width_said width).bytes * n }
    ensures { result ≡ all_good (width_said width) (numbers_in (width_said width).bytes n (drop 4 sheet.now)) }
{
    for i in 0..n {
        if !good_word(width, word_at(sheet, width, Place(i))) {
            return false;
        }
    }
    true
}

fn take_records(sheet: &[u8], width: usize, records: &mut [u64], n: usize)
    requires { (length sheet.now ≡ 4 + (width_said width).bytes * n) × (n ≤ length records.old) }
    ensures { records.new ≡ wrote 0 (held_by seven (width_said width) (numbers_in (width_said width).bytes n
        (drop 4 sheet.now))) records.old }
{
    for i in 0..n {
        records[i] = record_of(width, word_at(sheet, width, Place(i)));
    }
}

// The sheet's records go to the start of the places lent; the value is their count.
pub fn unpack(sheet: &[u8], records: &mut [u64]) -> Outcome
    ensures { Unpacks sheet.now records.old result records.new }
{
    let width = sheet_width(sheet);
    if width == 0 {
        return Outcome {
            number: 15,
            value: 0,
        };
    }
    let n = count_at(sheet);
    if !all_good(sheet, width, n) {
        return Outcome {
            number: 16,
            value: 0,
        };
    }
    if records.len() < n {
        return Outcome {
            number: 17,
            value: 0,
        };
    }
    take_records(sheet, width, records, n);
    Outcome {
        number: 0,
        value: n as u64,
    }
}
