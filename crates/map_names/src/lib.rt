// Where a map name stands in the text: the way of map_names/specs/Way, step by step, and so for any child of a NamedMap.
#![tactic(auto)]

ghost use Rattle.std.specs.Prelude.{◌≡◌};
ghost use Rattle.inside.specs.Walked.{child_at};
ghost use Rattle.inside.specs.Treads.{trod};
ghost use Rattle.map_names.specs.Treads.{lists_at, map_lists_at, in_map_treads, map_there, named_at};
ghost use Rattle.map_names.specs.Answered.{Answered};

use elements::children::{first_child, next_child, root_of};
use inside::attributes::attribute;
use inside::names::name_is;
use inside::texts::written;
use inside::ways::{behind_tag, child_named};
use number_values::dimensions_between;
use records::Index;

// The number of the refusal, or 0, and then where the name starts in the text, and its length.
#[derive(Clone, Copy)]
pub struct NamePlace {
    pub number: u64,
    pub start: usize,
    pub length: usize,
}

// The list of dimensions of the map at `at` is in form, and has the dimension.
fn lists(text: &[u8], at: usize, dimension: u64) -> bool
    ensures { result ≡ lists_at text.now dimension at }
{
    match attribute(text, at, b"AppliesToMatrixDimension") {
        Some(v) => match dimensions_between(text, v, dimension, dimension) {
            Some(n) => 0 < n,
            None => false,
        },
        None => false,
    }
}

fn map_lists(text: &[u8], at: usize, dimension: u64) -> bool
    ensures { result ≡ map_lists_at text.now dimension at }
{
    if name_is(text, at, b"MatrixIndicesMap") {
        return lists(text, at, dimension);
    }
    false
}

// The first map that lists the dimension, in the Matrix at `at`.
fn map_on(text: &[u8], at: usize, dimension: u64) -> Option<usize>
    ensures { result ≡ child_at (map_lists_at text.now dimension) 0 text.now at }
{
    let mut kid = first_child(text, at);
    loop {
        match kid {
            Some(k) => {
                if map_lists(text, k, dimension) {
                    return Some(k);
                }
                kid = next_child(text, k);
            }
            None => {
                return None;
            }
        }
    }
}

// The first child of this name in the NamedMap of this index, in the map at `at`.
fn name_on(text: &[u8], at: usize, index: Index, word: &[u8]) -> Option<usize>
    ensures { result ≡ trod (in_map_treads text.now word.now index.0) text.now at }
{
    match child_named(text, at, b"NamedMap", index.0) {
        Some(k) => child_named(text, k, word, 0),
        None => None,
    }
}

// The map that lists the dimension, from the root.
pub fn map_there(text: &[u8], dimension: u64) -> Option<usize>
    ensures { result ≡ map_there text.now dimension }
{
    match root_of(text) {
        Some(root) => match child_named(text, root, b"Matrix", 0) {
            Some(m) => map_on(text, m, dimension),
            None => None,
        },
        None => None,
    }
}

// The child of that name on it.
pub fn named_there(text: &[u8], dimension: u64, index: Index, word: &[u8]) -> Option<usize>
    ensures { result ≡ named_at text.now word.now dimension index.0 }
{
    match map_there(text, dimension) {
        Some(k) => name_on(text, k, index, word),
        None => None,
    }
}

// The place of the name, where `number` is what the conditions before 18 give.
pub fn place_of(text: &[u8], number: u64, dimension: u64, index: Index) -> NamePlace
    ensures { Answered text.now number dimension index.0 result }
{
    if number != 0 {
        return NamePlace {
            number: number,
            start: 0,
            length: 0,
        };
    }
    match named_there(text, dimension, index, b"MapName") {
        Some(k) => {
            let part = written(text, k);
            NamePlace {
                number: 0,
                start: behind_tag(text, k),
                length: part.len(),
            }
        }
        None => NamePlace {
            number: 18,
            start: 0,
            length: 0,
        },
    }
}
