// All names of a map in one call: where each starts in the text, and its length.
#![tactic(auto)]

ghost use Rattle.std.specs.Prelude.{◌≡◌, ◌+◌, ◌≤◌, length, get_or};
ghost use Rattle.records.specs.Fill.{wrote};
ghost use Rattle.all_names.specs.Names.{MapNamesPlaced};
ghost use Rattle.all_names.specs.Walk.{pair_of, pairs_at, Counted, NamesOn};

use elements::children::{first_child, next_child};
use inside::names::name_is;
use inside::texts::written;
use inside::ways::{behind_tag, child_named};
use map_names::map_there;
use records::Outcome;
use survey::surveyed;

// The start and length of the MapName in the NamedMap at `at`, from the n-th place on.
fn put_name(text: &[u8], at: usize, places: &mut [u64], n: usize)
    requires { n + 2 ≤ length places.old }
    ensures { places.new ≡ wrote n (pair_of text.now at) places.old }
{
    match child_named(text, at, b"MapName", 0) {
        Some(k) => {
            let part = written(text, k);
            places[n] = behind_tag(text, k) as u64;
            places[n + 1] = part.len() as u64;
        }
        None => {
            places[n] = 0;
            places[n + 1] = 0;
        }
    }
}

// Those of all NamedMaps of the map at `at`, in one walk.
fn put_names(text: &[u8], at: usize, places: &mut [u64])
    requires { length (pairs_at text.now at) ≤ length places.old }
    ensures { places.new ≡ wrote 0 (pairs_at text.now at) places.old }
{
    let mut n = 0;
    let mut kid = first_child(text, at);
    loop {
        match kid {
            Some(k) => {
                kid = next_child(text, k);
                if name_is(text, k, b"NamedMap") {
                    put_name(text, k, places, n);
                    n += 2;
                }
            }
            None => {
                return;
            }
        }
    }
}

// 18, 17, or the names of the map at `at`, of which there are `count` where there is one.
fn names_on(text: &[u8], at: usize, count: u64, places: &mut [u64]) -> Outcome
    requires { Counted text.now at count }
    ensures { NamesOn text.now at count places.old result places.new }
{
    match child_named(text, at, b"NamedMap", 0) {
        Some(_) => {
            if ((places.len() / 2) as u64) < count {
                return Outcome {
                    number: 17,
                    value: 0,
                };
            }
            put_names(text, at, places);
            Outcome {
                number: 0,
                value: count,
            }
        }
        None => Outcome {
            number: 18,
            value: 0,
        },
    }
}

fn length_at(lengths: &[u64], dimension: u64) -> u64
    ensures { result ≡ get_or lengths.now dimension 0 }
{
    if dimension < (lengths.len() as u64) {
        lengths[dimension as usize]
    } else {
        0
    }
}

// The first of 1 to 9, 18 and 17 that applies, or 0 and how many names there are; two numbers a name are then in `places`.
pub fn map_names(text: &[u8], lengths: &[u64], dimension: u64, places: &mut [u64]) -> Outcome
    ensures { MapNamesPlaced text.now lengths.now dimension places.old result
        places.new }
{
    let s = surveyed(text, lengths);
    let n = s.number;
    if n != 0 {
        return Outcome {
            number: n,
            value: 0,
        };
    }
    match map_there(text, dimension) {
        Some(k) => {
            let count = length_at(lengths, dimension);
            names_on(text, k, count, places)
        }
        None => Outcome {
            number: 18,
            value: 0,
        },
    }
}
