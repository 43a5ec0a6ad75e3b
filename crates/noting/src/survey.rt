// The maps of a matrix, each noted once.
ghost use Rattle.std.specs.Prelude.{◌≡◌};
ghost use Rattle.maps.specs.Sums.{MapAt};
ghost use Rattle.maps.specs.Survey.{NotedIf, NotedWith, NoneYet, MatrixAt, MapsAre};

use super::digits::dimensions_of;
use super::kind::kind_of;
use super::sums::{map_measure, place_behind};
use cifti::Kind;
use maps::dims::Dims;
use maps::survey::{MapNote, Maps, Seen, no_note};

pub fn no_maps() -> Maps
    ensures { NoneYet result }
{
    let none = no_note();
    Maps {
        count: 0,
        each: [none; 3],
    }
}

// What is noted of the map at `at` where it is wanted; else only where it ends.
fn note_of(text: &[u8], at: usize, wanted: bool) -> MapNote
    requires { MapAt text.now at }
    ensures { NotedIf wanted text.now at result }
{
    if wanted {
        let kind = kind_of(text, at);
        let lists = dimensions_of(text, at);
        let span = map_measure(text, at, kind);
        let volume = span.volume;
        return MapNote {
            at: at,
            behind: span.behind,
            kind: kind,
            lists: lists,
            length: span.length,
            volume: volume,
        };
    }
    let seen = Seen {
        found: false,
        at: 0,
    };
    MapNote {
        at: at,
        behind: place_behind(text, at),
        kind: Kind::None,
        lists: Dims { has: [0; 10] },
        length: 0,
        volume: seen,
    }
}

// The map is one more; of a fourth only the count is kept.
fn noted(maps: Maps, note: MapNote) -> Maps
    ensures { NotedWith note maps result }
{
    let n = maps.count;
    let mut next = maps;
    if n < 3 {
        next.each[n] = note;
        next.count = n + 1;
        return next;
    }
    next.count = 4;
    next
}

// A good matrix stands at `matrix`.
pub fn maps_of(text: &[u8], matrix: usize) -> Maps
    requires { MatrixAt text.now matrix }
    ensures { MapsAre text.now matrix result }
{
    let mut maps = no_maps();
    let mut kid = elements::children::first_child(text, matrix);
    loop {
        match kid {
            Some(k) => {
                if inside::names::name_is(text, k, b"MatrixIndicesMap") {
                    let note = note_of(text, k, maps.count < 3);
                    maps = noted(maps, note);
                    kid = elements::children::kid_from(text, note.behind);
                } else {
                    kid = elements::children::next_child(text, k);
                }
            }
            None => {
                return maps;
            }
        }
    }
}
