// What the answer says of the maps.
ghost use Rattle.std.specs.Prelude.{◌≡◌};
ghost use Rattle.nodes.specs.Places.{the};
ghost use Rattle.cifti.specs.Maps.{map_of};
ghost use Rattle.cifti.specs.Answer as answers;
ghost use Rattle.maps.specs.Survey.{Noted};
ghost use Rattle.maps.specs.Ready.{Ready, maps_at};
ghost use Rattle.maps.specs.ListedOnce.{Asking};
ghost use Rattle.describing.specs.Said.{series_in, start_in};

use super::room::reach_of;
use super::series::series_at;
use answers::{dimension_by, is_brain, is_series, no_series, unused};
use cifti::{Answer, Dimension, Series};
use maps::survey::{MapNote, Maps, nth};
use records::Place;

// What the map says of a series; zero where it is none.
fn series_in(text: &[u8], note: MapNote) -> Series
    requires { Noted text.now note }
    ensures { result ≡ series_in text.now note }
{
    if is_series(note.kind) {
        series_at(text, note.at)
    } else {
        no_series()
    }
}

// Where its stretch begins; zero where it has none.
fn start_in(note: MapNote, start: Place) -> Place
    ensures { result.0 ≡ start_in note start.0 }
{
    if is_brain(note.kind) { start } else { Place(0) }
}

// What the answer says of the map whose stretch, if it has one, begins at `start`.
fn described(text: &[u8], note: MapNote, start: Place) -> Dimension
    requires { Noted text.now note }
    ensures { result ≡ answers.described start.0 (map_of (the text.now note.at)) }
{
    dimension_by(
        note.kind,
        note.length,
        start_in(note, start),
        series_in(text, note),
    )
}

// What the answer says of dimension d.
fn dimension_at(text: &[u8], maps: Maps, d: usize) -> Dimension
    requires { Asking text.now maps d }
    ensures { result ≡ answers.dimension_at 0 (maps_at text.now maps) d }
{
    let mut start = 0;
    for i in 0..maps.count {
        let note = nth(maps, i);
        if note.lists.has[d] != 0 {
            return described(text, note, Place(start));
        }
        start += reach_of(note) as usize;
    }
    unused()
}

// All maps are ready.
pub fn accepted(text: &[u8], maps: Maps) -> Answer
    requires { Ready text.now maps }
    ensures { result ≡ answers.accepted_with (maps_at text.now maps) }
{
    let first = dimension_at(text, maps, 0);
    let second = dimension_at(text, maps, 1);
    let third = dimension_at(text, maps, 2);
    Answer {
        number: 0,
        dimensions: [first, second, third],
    }
}
