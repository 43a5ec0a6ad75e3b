// What is noted of each map, by value.
ghost use Rattle.std.specs.Prelude.{◌≡◌};
ghost use Rattle.maps.specs.Ready.{no_note};
ghost use Rattle.maps.specs.Over.{note_at};

use super::dims::Dims;
use cifti::Kind;

// Whether a Volume was met, and where the first begins.
#[derive(Clone, Copy)]
pub struct Seen {
    pub found: bool,
    pub at: usize,
}

// What is noted of a map: where it begins, the place behind it, its kind, the dimensions that it lists, its length, and its Volume.
#[derive(Clone, Copy)]
pub struct MapNote {
    pub at: usize,
    pub behind: usize,
    pub kind: Kind,
    pub lists: Dims,
    pub length: u64,
    pub volume: Seen,
}

// How many maps there are, told up to four, and what is noted of the first three.
#[derive(Clone, Copy)]
pub struct Maps {
    pub count: usize,
    pub each: [MapNote; 3],
}

// The length of a map, its Volume, and the place behind it.
#[derive(Clone, Copy)]
pub struct Measure {
    pub length: u64,
    pub volume: Seen,
    pub behind: usize,
}

pub fn no_note() -> MapNote
    ensures { result ≡ no_note }
{
    MapNote {
        at: 0,
        behind: 0,
        kind: Kind::None,
        lists: Dims { has: [0; 10] },
        length: 0,
        volume: Seen {
            found: false,
            at: 0,
        },
    }
}

// What is noted of the i-th map, nothing where there is none.
pub fn nth(maps: Maps, i: usize) -> MapNote
    ensures { result ≡ note_at maps i }
{
    if i < 3 {
        return maps.each[i];
    }
    no_note()
}
