// The name and the kind of a child, by its parent's lines.
ghost use Rattle.std.specs.Prelude.{◌≡◌, not, ◌-◌};
ghost use Rattle.grammar.specs.Look.{name_of};
ghost use Rattle.schema.specs.Schema.{kind_by, kind_among};
ghost use Rattle.nodes.specs.Places.{Stands, the};
ghost use Rattle.nodes.specs.Values.{value_there};
ghost use Rattle.schema.specs.Table.{cases_from, order_at, which_at};
ghost use Rattle.schema.specs.Lines.{KindRead, KindFor, in_turn, chosen_at, kind_next};
ghost use Rattle.schema.specs.Asked.{Known, Lined, TurnAsked};

use crate::table;
use letters::names::name_end;

// The name of the element at `at`.
pub fn name<'t>(text: &'t [u8], at: usize) -> &'t [u8]
    requires { Stands text.now at }
    ensures { result.now ≡ name_of (the text.now at) }
{
    match name_end(text, at + 1) {
        Some(e) => &text[at + 1..e],
        None => &[],
    }
}

// The kind that the value at `v` chooses among the cases from `from` up to `to`.
fn kind_in(
    text: &[u8],
    v: usize,
    table: &[u32],
    letters: &[u8],
    from: usize,
    to: usize,
) -> Option<usize>
    ensures { KindRead result (kind_among (cases_from table.now letters.now from to) (value_there text.now v)) }
{
    for i in from..to {
        let w = table::case_cell(table, i, 0);
        if inside::values::value_is(text, v, table::word(table, letters, w)) {
            return Some(table::case_cell(table, i, 1));
        }
    }
    None
}

// The kind that the word of a choice gives the element at `at`.
fn chosen(text: &[u8], at: usize, table: &[u32], letters: &[u8], choice: usize) -> Option<usize>
    requires { Known text.now at choice }
    ensures { KindRead result (chosen_at table.now letters.now choice (the text.now at)) }
{
    let w = table::choice_cell(table, choice, 0);
    let v = inside::attributes::attribute(text, at, table::word(table, letters, w))?;
    let from = table::choice_cell(table, choice, 1);
    let to = table::choice_cell(table, choice, 2);
    kind_in(text, v, table, letters, from, to)
}

// The kind of the element at `at` by a line: always the same one; or that of a choice, or else another one, if the choice has one.
fn line_kind(text: &[u8], at: usize, table: &[u32], letters: &[u8], line: usize) -> Option<usize>
    requires { Known text.now at line }
    ensures { KindRead result (kind_by (which_at table.now letters.now line) (the text.now at)) }
{
    let choice = table::line_cell(table, line, 2);
    if choice == 0 {
        return Some(table::line_cell(table, line, 3));
    }
    let other = table::choice_cell(table, choice - 1, 3).checked_sub(1);
    chosen(text, at, table, letters, choice - 1).or(other)
}

// The line comes before the last one, in a kind whose children come in order.
fn out_of_turn(table: &[u32], kind: usize, from: usize, line: usize, last: usize) -> bool
    requires { TurnAsked kind from line }
    ensures { result ≡ not (in_turn (order_at table.now kind) last (line - from)) }
{
    table::kind_cell(table, kind, 5) != 0 && line - from < last
}

// The kind of the child at `at`, by its line in a parent of this kind.
pub fn child_kind(
    text: &[u8],
    at: usize,
    table: &[u32],
    letters: &[u8],
    kind: usize,
    from: usize,
    line: usize,
    to: usize,
    last: usize,
) -> Option<usize>
    requires { Lined table.now letters.now text.now at kind from line to }
    ensures { KindFor result line to (kind_next table.now letters.now kind last (the text.now at)) }
{
    if to <= line || out_of_turn(table, kind, from, line, last) {
        return None;
    }
    line_kind(text, at, table, letters, line)
}
