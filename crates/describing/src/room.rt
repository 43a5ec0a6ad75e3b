// How many records a map takes, and condition 13: records lent are fewer than all stretches, or work space than the longest.
ghost use Rattle.std.specs.Prelude.{◌≡◌};
ghost use Rattle.cifti.specs.Conditions.{room_short};
ghost use Rattle.maps.specs.Ready.{Ready, maps_at};
ghost use Rattle.describing.specs.Room.{reach_in};

use answers::is_brain;
use maps::survey::{MapNote, Maps, nth};

pub(crate) fn reach_of(note: MapNote) -> u64
    ensures { result ≡ reach_in note }
{
    if is_brain(note.kind) { note.length } else { 0 }
}

// All maps are ready.
pub fn room_short(text: &[u8], maps: Maps, room: usize, work: usize) -> bool
    requires { Ready text.now maps }
    ensures { result ≡ room_short room work (maps_at text.now maps) }
{
    let lent = work as u64;
    let mut left = room as u64;
    for i in 0..maps.count {
        let note = nth(maps, i);
        let size = reach_of(note);
        if lent < size || left < size {
            return true;
        }
        left -= size;
    }
    false
}
