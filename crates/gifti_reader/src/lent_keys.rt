// The keys of one array, in a lent slice.
ghost use Rattle.nodes.specs.Places.{the};
ghost use Rattle.gifti.specs.Arrays.{array_keys};
ghost use Rattle.gifti.specs.Keys.{KeysOf};
ghost use Rattle.gifti_opening.specs.Passed.{FileHere};
ghost use Rattle.gifti_arrays.specs.Ready.{ArrayFull};
ghost use Rattle.label_table.specs.Labels.{Wrote};
ghost use Rattle.gifti_reader.specs.Keys.{ArraysPassed};

use super::number::number_of;
use gifti_arrays::{fill, noted};
use gifti_opening::gifti_opened;
use inside::ways::child_named;
use label_table::Filled;

// The keys of the array at `at`, where there is room for them.
fn keys_at(text: &[u8], at: usize, keys: &mut [i32]) -> Filled
    requires { ArrayFull text.now at }
    ensures { Wrote (array_keys (the text.now at)) keys.old result.number result.count keys.new }
{
    let note = noted(text, at);
    if (keys.len() as u64) < note.count {
        return Filled {
            number: 17,
            count: 0,
        };
    }
    let encoding = note.encoding;
    fill(text, note.from, encoding, keys);
    Filled {
        number: 0,
        count: note.count as usize,
    }
}

// Behind all conditions but 17.
fn keys_passed(text: &[u8], root: usize, array: u64, keys: &mut [i32]) -> Filled
    requires { ArraysPassed text.now root array }
    ensures { KeysOf text.now array keys.old result.number result.count keys.new }
{
    match child_named(text, root, b"DataArray", array) {
        Some(k) => keys_at(text, k, keys),
        None => Filled {
            number: 18,
            count: 0,
        },
    }
}

// Behind the conditions of the file.
fn keys_behind(text: &[u8], root: usize, array: u64, keys: &mut [i32]) -> Filled
    requires { FileHere text.now root }
    ensures { KeysOf text.now array keys.old result.number result.count keys.new }
{
    let n = number_of(text, root, array);
    if n != 0 {
        return Filled {
            number: n,
            count: 0,
        };
    }
    keys_passed(text, root, array, keys)
}

// The keys of the array of this place among the arrays, from 0, written from the start of the slice.
pub fn gifti_keys(text: &[u8], array: u64, keys: &mut [i32]) -> Filled
    ensures { KeysOf text.now array keys.old result.number result.count keys.new }
{
    let opened = gifti_opened(text);
    if opened.number != 0 {
        return Filled {
            number: opened.number,
            count: 0,
        };
    }
    keys_behind(text, opened.root, array, keys)
}
