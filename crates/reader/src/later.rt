// Conditions 10 to 14, 24 and 25, where 1 to 9 do not apply.
ghost use Rattle.std.specs.Prelude.{length};
ghost use Rattle.table.specs.Twice.{ToldAll};
ghost use Rattle.reader.specs.Later.{Asked, Later, MapsFine};

use describing::room_short;
use filling::any_twice;
use labels::{key_twice, labels_twice};
use maps::survey::Maps;
use models::judge::Judged;

// 14: the locations of each map were seen to be apart, or the repeat check decides.
fn location_twice(text: &[u8], maps: Maps, judged: Judged, work: &mut [u64]) -> bool
    requires { MapsFine text.now maps judged (length work.old) }
    ensures { ToldAll text.now maps work.old result work.new }
{
    if judged.apart {
        return false;
    }
    any_twice(text, maps, judged, work)
}

// 10, 11 and 12 are judged.
pub(crate) fn later_refusal(
    text: &[u8],
    maps: Maps,
    judged: Judged,
    room: usize,
    work: &mut [u64],
) -> u64
    requires { Asked text.now maps judged }
    ensures { Later text.now maps room work.old result work.new }
{
    if judged.number != 0 {
        return judged.number;
    }
    if room_short(text, maps, room, work.len()) {
        return 13;
    }
    if location_twice(text, maps, judged, work) {
        return 14;
    }
    if key_twice(text, maps) {
        return 24;
    }
    if labels_twice(text, maps) {
        return 25;
    }
    0
}
