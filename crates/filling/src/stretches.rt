// Each brain map fills one stretch of the records, in text order of maps.
ghost use Rattle.std.specs.Prelude.{◌≡◌, length};
ghost use Rattle.cifti.specs.Answer.{filled_with, stretches};
ghost use Rattle.maps.specs.Ready.{maps_at};
ghost use Rattle.table.specs.Stretch.{Writable, Written};
ghost use Rattle.table.specs.Stretches.{Fillable};

use super::placing::fill_models;
use answers::is_brain;
use maps::survey::{MapNote, Maps, nth};
use models::gather::Models;
use models::judge::{Judged, models_held};
use records::Place;

// The stretch of the map, if it has one, from `start` on; answers where the next begins.
fn fill_one(text: &[u8], note: MapNote, models: Models, records: &mut [u64], start: Place) -> Place
    requires { Writable text.now note models (length records.old) start.0 }
    ensures { Written text.now note.at records.old start.0 result.0 records.new }
{
    let kind = note.kind;
    if is_brain(kind) {
        let n = fill_models(text, models, records, start);
        return Place(start.0 + n);
    }
    start
}

// The maps pass 10, 11 and 12, and the records are long enough for all.
pub fn fill_all(text: &[u8], maps: Maps, judged: Judged, records: &mut [u64])
    requires { Fillable text.now maps judged (length records.old) }
    ensures { records.new ≡ filled_with (stretches (maps_at text.now maps)) records.old }
{
    let mut next = Place(0);
    for i in 0..maps.count {
        let note = nth(maps, i);
        let models = models_held(judged, i);
        next = fill_one(text, note, models, records, next);
    }
}
