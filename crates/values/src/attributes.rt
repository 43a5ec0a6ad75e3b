// The attributes of an element: those that it is to have, and that it has no others.
ghost use Rattle.std.specs.Prelude.{◌≡◌, ◌<◌};
ghost use Rattle.schema.specs.Table.{attributes_between};
ghost use Rattle.schema.specs.Parts.{name_listed};
ghost use Rattle.schema.specs.Asked.{Known};
ghost use Rattle.schema.specs.Walked.{AllListed};
ghost use Rattle.values.specs.InTurn.{TagGoesOn, AttributePlaced, AskingAttribute, AttributeAsked, Begins, AttributesWalked};

use crate::faults::sooner;
use crate::value::value_fault;
use heads::attributes::key_at;
use heads::values::value_end;
use letters::blanks::tag_ends;
use letters::names::{equal, name_end};
use lookup::table;
use steps::attributes::Key;

// Where an attribute stands, and a place in the tag.
#[derive(Drop)]
struct Sought {
    place: Option<usize>,
    at: usize,
}

// The attribute with the name: it is met at `i`, and passed; or it is searched in the whole tag.
fn seek(text: &[u8], at: usize, i: usize, name: &[u8]) -> Sought
    requires { TagGoesOn text.now at i }
    ensures { AttributePlaced text.now at i name.now result.place result.at }
{
    if let Some(Key { from, to, end }) = key_at(text, i) {
        if equal(&text[from..to], name) {
            if let Some(j) = value_end(text, end) {
                return Sought {
                    place: Some(end),
                    at: j,
                };
            }
        }
    }
    Sought {
        place: inside::attributes::attribute(text, at, name),
        at: i,
    }
}

// A fault of attributes, and a place in the tag: those before it are of the row. The place stands beside every fault, so this is no Result.
#[derive(Clone, Copy)]
pub(crate) struct Walk {
    pub(crate) fault: u8,
    pub(crate) at: usize,
}

// The fault of an attribute: it is missing, or its value is not of its form.
fn attribute_fault(
    text: &[u8],
    at: usize,
    table: &[u32],
    letters: &[u8],
    a: usize,
    i: usize,
) -> Walk
    requires { AskingAttribute text.now at a i }
    ensures { AttributeAsked table.now letters.now text.now at a i result.fault result.at }
{
    let w = table::attribute_cell(table, a, 0);
    let here = seek(text, at, i, table::word(table, letters, w));
    let fault = match here.place {
        Some(v) => value_fault(text, v, table, letters, table::attribute_cell(table, a, 1)),
        None if table::attribute_cell(table, a, 2) == 0 => 6,
        None => 0,
    };
    Walk { fault, at: here.at }
}

// Where the attributes of the tag at `at` begin.
fn attributes_from(text: &[u8], at: usize) -> usize
    ensures { Begins text.now at result }
{
    if text.len() <= at {
        return text.len();
    }
    match name_end(text, at + 1) {
        Some(i) => i,
        None => text.len(),
    }
}

// The fault of the attributes that the element at `at` is to have.
pub(crate) fn attributes_fault(
    text: &[u8],
    at: usize,
    table: &[u32],
    letters: &[u8],
    kind: usize,
) -> Walk
    requires { Known text.now at kind }
    ensures { AttributesWalked table.now letters.now text.now at kind result.fault result.at }
{
    let to = table::kind_cell(table, kind, 1);
    let mut worst = 0;
    let mut i = attributes_from(text, at);
    for w in table::kind_cell(table, kind, 0)..to {
        let next = attribute_fault(text, at, table, letters, w, i);
        worst = sooner(worst, next.fault);
        i = next.at;
    }
    Walk {
        fault: worst,
        at: i,
    }
}

// A name is that of one of the attributes from `from` up to `to`.
fn name_listed(name: &[u8], table: &[u32], letters: &[u8], from: usize, to: usize) -> bool
    requires { to < 4294967296 }
    ensures { result ≡ name_listed (attributes_between table.now letters.now from to) name.now }
{
    table::attribute_named(name, table, letters, from, to) < to
}

// Whether every attribute is listed, and a place in the tag: up to it they were passed. Both answers have a place, so a Result would say it
// twice.
#[derive(Clone, Copy)]
pub(crate) struct Listed {
    pub(crate) right: bool,
    pub(crate) at: usize,
}

// Every attribute from `at` on is one of them.
pub(crate) fn listed_from(
    text: &[u8],
    at: usize,
    table: &[u32],
    letters: &[u8],
    from: usize,
    to: usize,
) -> Listed
    requires { to < 4294967296 }
    ensures { AllListed (attributes_between table.now letters.now from to) text.now at
        result.right result.at }
{
    let mut i = at;
    while !tag_ends(text, i) {
        let Some(key) = key_at(text, i) else {
            return Listed { right: true, at: i };
        };
        if !name_listed(&text[key.from..key.to], table, letters, from, to) {
            return Listed {
                right: false,
                at: i,
            };
        }
        let Some(j) = value_end(text, key.end) else {
            return Listed { right: true, at: i };
        };
        i = j;
    }
    Listed { right: true, at: i }
}
