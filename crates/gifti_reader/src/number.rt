// Conditions 9, 24, 18, 30 and 31, in this order.
ghost use Rattle.std.specs.Prelude.{◌≡◌};
ghost use Rattle.lists.specs.Refusals.{first};
ghost use Rattle.nodes.specs.Places.{the};
ghost use Rattle.label_table.specs.Labels.{twice_at};
ghost use Rattle.gifti_opening.specs.Passed.{FileHere};
ghost use Rattle.gifti_reader.specs.Number.{rows_of_arrays, TableAt, TableOnce, number_twice, number_once};

use gifti_arrays::{arrays_told, searched};
use inside::ways::child_named;
use key_twice::key_twice;
use maps::fields::attribute_number;

// A key stands twice in the table, with room for 163,840 keys.
fn twice_in(text: &[u8], table: usize) -> bool
    ensures { result ≡ twice_at text.now table }
{
    let mut work = [0u32; 163840];
    key_twice(text, table, &mut work[..])
}

// Where the table of labels stands.
fn table_of(text: &[u8], root: usize) -> usize
    requires { FileHere text.now root }
    ensures { TableAt text.now (the text.now root) result }
{
    match child_named(text, root, b"LabelTable", 0) {
        Some(k) => k,
        None => 0,
    }
}

// Where a key stands twice: the arrays are told against no key at all.
fn number_twice(text: &[u8], root: usize) -> u64
    requires { FileHere text.now root }
    ensures { result ≡ number_twice (the text.now root) }
{
    let none = [0u32; 1];
    let told = arrays_told(text, root, &none[..0]);
    if told.arrays as u64 != attribute_number(text, root, b"NumberOfDataArrays", 0, 9999999) {
        return 9;
    }
    24
}

// Where no key does.
fn number_once(text: &[u8], root: usize, table: usize, array: u64) -> u64
    requires { TableOnce text.now root table }
    ensures { result ≡ number_once array (the text.now root) }
{
    let told = searched(text, root, table);
    if told.arrays as u64 != attribute_number(text, root, b"NumberOfDataArrays", 0, 9999999) {
        return 9;
    }
    if told.arrays as u64 <= array {
        return 18;
    }
    if !told.fit {
        return 30;
    }
    if told.known != told.keys {
        return 31;
    }
    0
}

pub(crate) fn number_of(text: &[u8], root: usize, array: u64) -> u64
    requires { FileHere text.now root }
    ensures { result ≡ first (rows_of_arrays array (the text.now root)) }
{
    let table = table_of(text, root);
    if twice_in(text, table) {
        return number_twice(text, root);
    }
    number_once(text, root, table, array)
}
