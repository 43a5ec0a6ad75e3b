// The length of a map, and where it ends: one walk over its children.
ghost use Rattle.nodes.specs.Places.{Stands, the};
ghost use Rattle.nodes.specs.ElementEnd.{Behind};
ghost use Rattle.maps.specs.Sums.{Weighed, InShort, AheadBehind, Summed, KindAt, Spanned, VolumeMet};

use super::kind::counts;
use answers::{is_brain, is_series};
use cifti::Kind;
use elements::ahead::{ahead_first, ahead_from};
use elements::scan::skip;
use maps::fields::attribute_number;
use maps::limits::MOST_RECORDS;
use maps::survey::{Measure, Seen};
use nodes::ahead::Ahead;

// What a child adds to the length of a map of this kind: a model its count, any other that counts 1.
fn weight(text: &[u8], at: usize, kind: Kind) -> u64
    requires { Stands text.now at }
    ensures { Weighed kind (the text.now at) result }
{
    if counts(text, at, kind) {
        if is_brain(kind) {
            return attribute_number(text, at, b"IndexCount", 1, MOST_RECORDS);
        }
        return 1;
    }
    0
}

// What is seen of a brain map's Volume, with the child at `at`; the first is kept.
fn volume_met(text: &[u8], at: usize, kind: Kind, seen: Seen) -> Seen
    requires { Stands text.now at }
    ensures { VolumeMet kind text.now at seen result }
{
    if is_brain(kind) {
        if seen.found {
            return seen;
        }
        if inside::names::name_is(text, at, b"Volume") {
            return Seen {
                found: true,
                at: at,
            };
        }
        return seen;
    }
    seen
}

// What stands ahead behind the element at `at`.
fn ahead_behind(text: &[u8], at: usize) -> Ahead
    ensures { AheadBehind text.now at result }
{
    match skip(text, at) {
        Some(j) => ahead_from(text, j, true),
        None => Ahead::Stray,
    }
}

// The place behind the element at `at`.
pub(crate) fn place_behind(text: &[u8], at: usize) -> usize
    requires { Stands text.now at }
    ensures { Behind text.now at result }
{
    match skip(text, at) {
        Some(j) => j,
        None => 0,
    }
}

// What the children add, and where the element ends, which the last of them tells.
fn children_sum(text: &[u8], at: usize, kind: Kind) -> Measure
    requires { InShort text.now at }
    ensures { Summed text.now at kind result }
{
    let mut n = 0;
    let mut seen = Seen {
        found: false,
        at: 0,
    };
    let mut next = ahead_first(text, at, true);
    loop {
        match next {
            Ahead::Child(k) => {
                n += weight(text, k, kind);
                seen = volume_met(text, k, kind, seen);
                next = ahead_behind(text, k);
            }
            Ahead::End(behind) => {
                return Measure {
                    length: n,
                    volume: seen,
                    behind: behind,
                };
            }
            Ahead::Stray => {
                return Measure {
                    length: n,
                    volume: seen,
                    behind: 0,
                };
            }
        }
    }
}

// The length of the map at `at`, which is of this kind, and where it ends.
pub(crate) fn map_measure(text: &[u8], at: usize, kind: Kind) -> Measure
    requires { KindAt text.now at kind }
    ensures { Spanned text.now at kind result }
{
    if is_series(kind) {
        let none = Seen {
            found: false,
            at: 0,
        };
        return Measure {
            length: attribute_number(text, at, b"NumberOfSeriesPoints", 1, MOST_RECORDS),
            volume: none,
            behind: place_behind(text, at),
        };
    }
    children_sum(text, at, kind)
}
