// Condition 9: a map's length is not that of a dimension it applies to.
ghost use Rattle.std.specs.Prelude.{◌≡◌, get_or};
ghost use Rattle.nodes.specs.Places.{the};
ghost use Rattle.cifti.specs.Conditions.{length_wrong};
ghost use Rattle.cifti.specs.Maps.{dimensions_of};
ghost use Rattle.maps.specs.Survey.{Noted};
ghost use Rattle.maps.specs.Ready.{Ready, maps_at};
ghost use Rattle.maps.specs.LengthsAgree.{differs, differs_at, DigitOf};

use maps::survey::{MapNote, Maps, nth};

fn length_at(lengths: &[u64], d: usize) -> u64
    ensures { result ≡ get_or lengths.now d 0 }
{
    if d < lengths.len() { lengths[d] } else { 0 }
}

// Whether the map lists the dimension, and it has another length.
fn dimension_differs(text: &[u8], note: MapNote, d: usize, lengths: &[u64]) -> bool
    requires { DigitOf text.now note d }
    ensures { result ≡ differs_at note.length lengths.now (dimensions_of (the text.now note.at)) d }
{
    if length_at(lengths, d) == note.length {
        return false;
    }
    let lists = note.lists;
    lists.has[d] != 0
}

// Whether a dimension that the map lists has another length.
fn length_differs(text: &[u8], note: MapNote, lengths: &[u64]) -> bool
    requires { Noted text.now note }
    ensures { result ≡ differs note.length lengths.now (dimensions_of (the text.now note.at)) }
{
    for d in 0..10 {
        if dimension_differs(text, note, d, lengths) {
            return true;
        }
    }
    false
}

pub(crate) fn length_wrong(text: &[u8], maps: Maps, lengths: &[u64]) -> bool
    requires { Ready text.now maps }
    ensures { result ≡ length_wrong lengths.now (maps_at text.now maps) }
{
    for i in 0..maps.count {
        let note = nth(maps, i);
        if length_differs(text, note, lengths) {
            return true;
        }
    }
    false
}
