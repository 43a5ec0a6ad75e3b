// The keys of an array, counted, and those of them that stand in a part of the table; written into a lent slice.
ghost use Rattle.std.specs.Prelude.{◌≡◌, true};
ghost use Rattle.array_keys.specs.Ahead.{keys_ahead, keys_start};
ghost use Rattle.label_table.specs.Labels.{keys_written};
ghost use Rattle.known_keys.specs.Order.{in_order};
ghost use Rattle.gifti_arrays.specs.Tally.{RowRoom, Tallied};

use array_keys::{Encoding, fill_from, keys_start, letter_values};
use known_keys::known_among;

// How many keys there are, how many of them stand in the part of the table, and how many bytes are left over behind the last.
#[derive(Clone, Copy)]
pub struct Tally {
    pub keys: usize,
    pub known: usize,
    pub spare: usize,
}

// The keys that the Data at `from` writes, as many at a time as the row has room for.
fn count_rows(text: &[u8], from: usize, encoding: Encoding, codes: &[u32], row: &mut [i32]) -> Tally
    requires { (in_order codes.now ≡ true) × (RowRoom row.old) }
    ensures { Tallied encoding text.now (keys_start text.now from) codes.now result }
{
    let values = letter_values();
    let mut keys = 0;
    let mut known = 0;
    let mut place = keys_start(text, from);
    loop {
        let got = fill_from(text, encoding, place, &values, row);
        let n = got.count;
        known += known_among(&row[..n], codes);
        keys += n;
        place = got.next;
        if n < row.len() {
            return Tally {
                keys,
                known,
                spare: got.spare,
            };
        }
    }
}

// The keys that the Data at `from` writes, against codes of keys in their order.
pub(crate) fn count_keys(text: &[u8], from: usize, encoding: Encoding, codes: &[u32]) -> Tally
    requires { in_order codes.now ≡ true }
    ensures { Tallied encoding text.now (keys_start text.now from) codes.now result }
{
    let mut row = [0i32; 16384];
    count_rows(text, from, encoding, codes, &mut row[..])
}

// Writes the keys from the start of the slice, as many as it has room for.
pub fn fill(text: &[u8], from: usize, encoding: Encoding, keys: &mut [i32])
    ensures { keys.new
        ≡ keys_written (keys_ahead encoding text.now (keys_start text.now from)) keys.old }
{
    let values = letter_values();
    let start = keys_start(text, from);
    fill_from(text, encoding, start, &values, keys);
}
