// The number of a word: its place in a list of words of a table. Their front part is asked for once, then the rests are compared.
ghost use Rattle.std.specs.Prelude.{◌≡◌, ◌+◌, ◌<◌, drop};
ghost use Rattle.nodes.specs.Values.{value_there, tells};
ghost use Rattle.schema.specs.Words.{number_in};
ghost use Rattle.schema.specs.Table.{words_from, rests_from, words_at};

use crate::table;
use inside::values::{begins, quote_at, rest_is};

// The first of the words from `from` up to `to` that the decoded bytes from `at` up to the quote are, or `to`.
fn rest_place(
    text: &[u8],
    at: usize,
    quote: u8,
    table: &[u32],
    letters: &[u8],
    from: usize,
    to: usize,
) -> usize
    ensures { result ≡ from + number_in (rests_from table.now letters.now from to)
        (tells quote (drop at text.now)) }
{
    for i in from..to {
        if rest_is(text, at, quote, table::word(table, letters, i)) {
            return i;
        }
    }
    from.max(to)
}

// The first of the words from `from` up to `to`, behind their front part, that is the value at `v`, or `to`.
pub fn word_place(
    text: &[u8],
    v: usize,
    table: &[u32],
    letters: &[u8],
    front: usize,
    from: usize,
    to: usize,
) -> usize
    ensures { result ≡ from + number_in (words_from table.now letters.now front from to)
        (value_there text.now v) }
{
    match begins(text, v, table::front(table, letters, front)) {
        Some(i) => rest_place(text, i, quote_at(text, v), table, letters, from, to),
        None => from.max(to),
    }
}

// The place of the value at `v` among the words of a form of the table, or their number.
pub fn word_number(text: &[u8], v: usize, table: &[u32], letters: &[u8], form: u32) -> u64
    ensures { result ≡ number_in (words_at table.now letters.now form) (value_there text.now v) }
{
    let list = table::wide(form);
    let from = table::form_cell(table, list, 1);
    let to = table::form_cell(table, list, 2);
    let front = table::form_cell(table, list, 3);
    (word_place(text, v, table, letters, front, from, to) - from) as u64
}
