// The numbers of a lent table. Any table will do: what is not there is 0.
ghost use Rattle.std.specs.Prelude.{◌≡◌, ◌+◌, ◌-◌, ◌<◌, ◌≤◌, get_or};
ghost use Rattle.grammar.specs.Bytes.{ascii};
ghost use Rattle.schema.specs.Lines.{entry_place, line_place, attribute_place};
ghost use Rattle.schema.specs.Table.{entry, kind_cell, attribute_cell, line_cell, choice_cell, case_cell, bound as boundOf, form_cell, lines_to};
ghost use Rattle.schema.specs.Table.{word_at, front_at};

use letters::names::equal;

pub fn wide(x: u32) -> usize
    ensures { (result ≡ x) × (result < 4294967296) }
{
    x as usize
}

pub fn cell(table: &[u32], i: usize) -> usize
    ensures { (result ≡ get_or table.now i 0) × (result < 4294967296) }
{
    match table.get(i) {
        Some(x) => wide(*x),
        None => 0,
    }
}

// A number of an entry, in a part of the table whose entries have `size` numbers each.
fn entry_cell(table: &[u32], part: usize, size: usize, row: usize, column: usize) -> usize
    ensures { (result ≡ entry table.now part size row column) × (result < 4294967296) }
{
    let from = cell(table, part);
    cell(
        table,
        size.saturating_mul(row)
            .saturating_add(from)
            .saturating_add(column),
    )
}

pub fn kind_cell(table: &[u32], row: usize, column: usize) -> usize
    ensures { (result ≡ kind_cell table.now row column) × (result < 4294967296) }
{
    entry_cell(table, 0, 6, row, column)
}

pub fn attribute_cell(table: &[u32], row: usize, column: usize) -> usize
    ensures { (result ≡ attribute_cell table.now row column) × (result < 4294967296) }
{
    entry_cell(table, 1, 3, row, column)
}

pub fn line_cell(table: &[u32], row: usize, column: usize) -> usize
    ensures { (result ≡ line_cell table.now row column) × (result < 4294967296) }
{
    entry_cell(table, 2, 4, row, column)
}

pub(crate) fn choice_cell(table: &[u32], row: usize, column: usize) -> usize
    ensures { (result ≡ choice_cell table.now row column) × (result < 4294967296) }
{
    entry_cell(table, 3, 4, row, column)
}

pub(crate) fn case_cell(table: &[u32], row: usize, column: usize) -> usize
    ensures { (result ≡ case_cell table.now row column) × (result < 4294967296) }
{
    entry_cell(table, 4, 2, row, column)
}

pub fn form_cell(table: &[u32], row: usize, column: usize) -> usize
    ensures { (result ≡ form_cell table.now row column) × (result < 4294967296) }
{
    entry_cell(table, 6, 4, row, column)
}

// Where a word begins in the letters.
fn bound(table: &[u32], w: usize) -> usize
    ensures { (result ≡ boundOf table.now w) × (result < 4294967296) }
{
    entry_cell(table, 5, 1, w, 0)
}

// The end of the lines of a kind: eight at most, and none where it has text.
#[tactic(auto, using(crate::proofs::Laws::Cells::lines_ending))]
pub fn lines_end(table: &[u32], kind: usize) -> usize
    ensures { (result ≡ lines_to table.now kind) × (result < 4294967304) }
{
    let from = kind_cell(table, kind, 2);
    if kind_cell(table, kind, 4) != 0 {
        return from;
    }
    kind_cell(table, kind, 3).min(from + 8)
}

// The letters of a word; none where the table has none.
pub fn word<'l>(table: &[u32], letters: &'l [u8], w: usize) -> &'l [u8]
    ensures { result.now ≡ ascii (word_at table.now letters.now w) }
{
    let from = bound(table, w);
    let to = bound(table, w.saturating_add(1));
    letters.get(from..to).unwrap_or(&[])
}

// The letters of a front part; none where there is none.
#[tactic(auto, using(schema::proofs::Laws::Table::fronting))]
pub(crate) fn front<'l>(table: &[u32], letters: &'l [u8], front: usize) -> &'l [u8]
    ensures { result.now ≡ ascii (front_at table.now letters.now front) }
{
    if front == 0 {
        return &[];
    }
    word(table, letters, front - 1)
}

// The first of the entries from `from` up to `to` whose word is the name, or `to`; a part and a size as above.
fn entry_named(
    name: &[u8],
    table: &[u32],
    letters: &[u8],
    part: usize,
    size: usize,
    from: usize,
    to: usize,
) -> usize
    ensures { result ≡ from + entry_place table.now letters.now part size name.now from (to - from) }
{
    for i in from..to {
        let w = entry_cell(table, part, size, i, 0);
        if equal(name, word(table, letters, w)) {
            return i;
        }
    }
    from.max(to)
}

// The first of the attributes from `from` up to `to` with the name, or `to`.
pub fn attribute_named(name: &[u8], table: &[u32], letters: &[u8], from: usize, to: usize) -> usize
    ensures { result ≡ from + attribute_place table.now letters.now name.now from (to - from) }
{
    entry_named(name, table, letters, 1, 3, from, to)
}

// The first of the lines from `from` up to `to` with the name, or `to`.
pub fn line_named(name: &[u8], table: &[u32], letters: &[u8], from: usize, to: usize) -> usize
    ensures { result ≡ from + line_place table.now letters.now name.now from (to - from) }
{
    entry_named(name, table, letters, 2, 4, from, to)
}
