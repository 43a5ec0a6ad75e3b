// One array: what it says of its keys, and its keys against a part of the table.
ghost use Rattle.std.specs.Prelude.{◌≡◌};
ghost use Rattle.nodes.specs.Places.{Stands, the};
ghost use Rattle.gifti_arrays.specs.Ready.{ArrayHere, ArrayAsked};
ghost use Rattle.gifti_arrays.specs.Arrays.{encoding_of, data_at, ArrayNoted, ToldArray};

use super::tally::count_keys;
use array_keys::Encoding;
use inside::values::attribute_is;
use inside::ways::child_named;
use maps::fields::attribute_number;

// Where the Data of an array stands, how it writes the keys, and how many they are to be.
#[derive(Clone, Copy)]
pub struct ArrayNote {
    pub from: usize,
    pub encoding: Encoding,
    pub count: u64,
}

// Whether an array has as many keys as it is to have, and no bytes left over; how many, and how many of them stand in the part of the
// table.
#[derive(Clone, Copy)]
pub struct ArrayTold {
    pub fits: bool,
    pub keys: usize,
    pub known: usize,
}

fn encoding_of(text: &[u8], at: usize) -> Encoding
    requires { Stands text.now at }
    ensures { result ≡ encoding_of (the text.now at) }
{
    if attribute_is(text, at, b"Encoding", b"Base64Binary") {
        if attribute_is(text, at, b"Endian", b"BigEndian") {
            return Encoding::Big;
        }
        return Encoding::Little;
    }
    Encoding::Plain
}

// The place of the Data of the array at `at`; 0 where it has none.
fn data_of(text: &[u8], at: usize) -> usize
    ensures { result ≡ data_at text.now at }
{
    match child_named(text, at, b"Data", 0) {
        Some(k) => k,
        None => 0,
    }
}

pub fn noted(text: &[u8], at: usize) -> ArrayNote
    requires { ArrayHere text.now at }
    ensures { ArrayNoted text.now (the text.now at) result }
{
    ArrayNote {
        from: data_of(text, at),
        encoding: encoding_of(text, at),
        count: attribute_number(text, at, b"Dim0", 1, 1048576),
    }
}

pub(crate) fn array_told(text: &[u8], at: usize, codes: &[u32]) -> ArrayTold
    requires { ArrayAsked text.now at codes.now }
    ensures { ToldArray text.now (the text.now at) codes.now result }
{
    let note = noted(text, at);
    let encoding = note.encoding;
    let counted = count_keys(text, note.from, encoding, codes);
    ArrayTold {
        fits: (counted.keys as u64 == note.count) & (counted.spare == 0),
        keys: counted.keys,
        known: counted.known,
    }
}
