// Condition 24: a key twice in one table of a labels map.
ghost use Rattle.std.specs.Prelude.{◌≡◌};
ghost use Rattle.cifti.specs.Conditions.{key_twice};
ghost use Rattle.maps.specs.Survey.{Noted};
ghost use Rattle.maps.specs.Ready.{Ready, maps_at};
ghost use Rattle.maps.specs.Over.{map_on};
ghost use Rattle.labels.specs.Twice.{named_twice, tables_twice, map_twice};

use answers::is_labels;
use elements::children::{first_child, next_child};
use inside::names::name_is;
use maps::survey::{MapNote, Maps, nth};

// In a LabelTable of the NamedMap at `at`.
fn named_twice(text: &[u8], at: usize, work: &mut [u32]) -> bool
    ensures { result ≡ named_twice text.now at }
{
    let mut kid = first_child(text, at);
    loop {
        match kid {
            Some(k) => {
                kid = next_child(text, k);
                if name_is(text, k, b"LabelTable") {
                    if key_twice::key_twice(text, k, work) {
                        return true;
                    }
                }
            }
            None => {
                return false;
            }
        }
    }
}

// In a table of the map at `at`.
fn tables_twice(text: &[u8], at: usize, work: &mut [u32]) -> bool
    ensures { result ≡ tables_twice text.now at }
{
    let mut kid = first_child(text, at);
    loop {
        match kid {
            Some(k) => {
                kid = next_child(text, k);
                if name_is(text, k, b"NamedMap") {
                    if named_twice(text, k, work) {
                        return true;
                    }
                }
            }
            None => {
                return false;
            }
        }
    }
}

// The same, with room for 163,840 keys: half of the most that a text can have, and more. It is made once for all tables.
fn some_twice(text: &[u8], at: usize) -> bool
    ensures { result ≡ tables_twice text.now at }
{
    let mut work = [0u32; 163840];
    tables_twice(text, at, &mut work[..])
}

// In a table of the map, if it is of labels.
fn map_twice(text: &[u8], note: MapNote) -> bool
    requires { Noted text.now note }
    ensures { result ≡ map_twice (map_on text.now note) }
{
    let kind = note.kind;
    if is_labels(kind) {
        return some_twice(text, note.at);
    }
    false
}

pub fn key_twice(text: &[u8], maps: Maps) -> bool
    requires { Ready text.now maps }
    ensures { result ≡ key_twice (maps_at text.now maps) }
{
    for i in 0..maps.count {
        let note = nth(maps, i);
        if map_twice(text, note) {
            return true;
        }
    }
    false
}
