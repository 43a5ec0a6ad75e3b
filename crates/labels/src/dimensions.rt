// Condition 25: the labels maps together list more than one dimension.
ghost use Rattle.std.specs.Prelude.{◌≡◌, min, length};
ghost use Rattle.nodes.specs.Places.{the};
ghost use Rattle.cifti.specs.Maps.{dimensions_of};
ghost use Rattle.cifti.specs.Conditions.{labels_twice};
ghost use Rattle.maps.specs.Survey.{Noted};
ghost use Rattle.maps.specs.Ready.{Ready, maps_at};
ghost use Rattle.maps.specs.Over.{map_on};
ghost use Rattle.labels.specs.Dimensions.{labelled};

use answers::is_labels;
use maps::survey::{MapNote, Maps, nth};

fn capped(n: u64) -> u64
    ensures { result ≡ min 2 n }
{
    if n < 2 { n } else { 2 }
}

// How many dimensions the map lists, told up to two.
fn listed(text: &[u8], note: MapNote) -> u64
    requires { Noted text.now note }
    ensures { result ≡ min 2 (length (dimensions_of (the text.now note.at))) }
{
    let mut n = 0;
    for d in 0..10 {
        let lists = note.lists;
        n = capped(n + lists.has[d]);
    }
    n
}

// The same of a labels map; none of another.
fn listed_by_labels(text: &[u8], note: MapNote) -> u64
    requires { Noted text.now note }
    ensures { result ≡ min 2 (length (labelled (map_on text.now note))) }
{
    let kind = note.kind;
    if is_labels(kind) {
        return listed(text, note);
    }
    0
}

pub fn labels_twice(text: &[u8], maps: Maps) -> bool
    requires { Ready text.now maps }
    ensures { result ≡ labels_twice (maps_at text.now maps) }
{
    let mut n = 0;
    for i in 0..maps.count {
        let note = nth(maps, i);
        n = capped(n + listed_by_labels(text, note));
    }
    1 < n
}
