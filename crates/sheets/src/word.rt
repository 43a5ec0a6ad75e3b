// The words of a sheet, a record with its end bits each. `width` is the bytes per record that the sheet says: 5, or else 7.
ghost use Rattle.std.specs.Prelude.{◌≡◌, ◌+◌, ◌*◌, ◌≤◌, ◌<◌, length, take, drop};
ghost use Rattle.records.specs.Width.{seven, width_said};
ghost use Rattle.records.specs.Bytes.{number_written};
ghost use Rattle.records.specs.Record.{carried};
ghost use Rattle.records.specs.Sheet.{bare, good_word};

use record_fields::{legal, legal_five, widen};
use records::Place;

// A byte as a number of 64 bits.
pub(crate) fn wide(b: u8) -> u64
    ensures { (result ≡ b) × (result < 256) }
{
    b as u64
}

fn five_bytes(sheet: &[u8], at: usize) -> u64
    requires { at + 5 ≤ length sheet.now }
    ensures { (result ≡ number_written (take 5 (drop at sheet.now))) × (result < 1099511627776) }
{
    let high = wide(sheet[at]) * 256 + wide(sheet[at + 1]);
    let low = wide(sheet[at + 2]) * 65_536 + wide(sheet[at + 3]) * 256 + wide(sheet[at + 4]);
    high * 16_777_216 + low
}

fn seven_bytes(sheet: &[u8], at: usize) -> u64
    requires { at + 7 ≤ length sheet.now }
    ensures { result ≡ number_written (take 7 (drop at sheet.now)) }
{
    let high = wide(sheet[at]) * 256 + wide(sheet[at + 1]);
    high * 1_099_511_627_776 + five_bytes(sheet, at + 2)
}

// The word at the place.
pub(crate) fn word_at(sheet: &[u8], width: usize, place: Place) -> u64
    requires { 4 + (width_said width).bytes * (place.0 + 1) ≤ length sheet.now }
    ensures { result ≡ number_written (take (width_said width).bytes
        (drop (4 + (width_said width).bytes * place.0) sheet.now)) }
{
    if width == 5 {
        five_bytes(sheet, 4 + 5 * place.0)
    } else {
        seven_bytes(sheet, 4 + 7 * place.0)
    }
}

// The end bits are 0 and the record is legal.
pub(crate) fn good_word(width: usize, word: u64) -> bool
    ensures { result ≡ good_word (width_said width) word }
{
    if width == 5 {
        legal_five(word)
    } else {
        word % 4 == 0 && legal(word / 4)
    }
}

// The record of the word's location.
pub(crate) fn record_of(width: usize, word: u64) -> u64
    ensures { result ≡ carried seven (width_said width) (bare (width_said width) word) }
{
    if width == 5 {
        widen(word)
    } else {
        word / 4 % 18_014_398_509_481_984
    }
}

// The record at the place.
pub fn record_at(sheet: &[u8], width: usize, place: Place) -> u64
    requires { 4 + (width_said width).bytes * (place.0 + 1) ≤ length sheet.now }
    ensures { result ≡ carried seven (width_said width) (bare (width_said width) (number_written (take (width_said width).bytes
        (drop (4 + (width_said width).bytes * place.0) sheet.now)))) }
{
    record_of(width, word_at(sheet, width, place))
}
