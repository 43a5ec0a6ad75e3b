// Condition 14: a vertex twice in a model, or a voxel twice in a map.
ghost use Rattle.std.specs.Prelude.{◌≡◌, map, ◌≤◌, length, take};
ghost use Rattle.records.specs.Fill.{wrote};
ghost use Rattle.records.specs.Record.{key_of};
ghost use Rattle.table.specs.Stretch.{Writable};
ghost use Rattle.table.specs.Twice.{KeyTwice, ToldOne, AllFine, ToldAll};

use super::placing::fill_models;
use answers::is_brain;
use maps::survey::{MapNote, Maps, nth};
use models::gather::Models;
use models::judge::{Judged, models_held};
use record_fields::key;
use records::Place;
use repeats::repeats_in;

// The first n records, each made its key.
fn to_keys(work: &mut [u64], n: usize)
    requires { n ≤ length work.old }
    ensures { work.new ≡ wrote 0 (map key_of (take n work.old)) work.old }
{
    for i in 0..n {
        work[i] = key(work[i]);
    }
}

// Whether two of the first n records have one key; the work space is zero after.
fn key_twice(work: &mut [u64], n: usize) -> bool
    requires { n ≤ length work.old }
    ensures { KeyTwice n work.old result work.new }
{
    to_keys(work, n);
    repeats_in(work, n) == 14
}

// Condition 14 of one map; the work space keeps its length.
fn map_twice(text: &[u8], note: MapNote, models: Models, work: &mut [u64]) -> bool
    requires { Writable text.now note models (length work.old) 0 }
    ensures { ToldOne text.now note.at work.old result work.new }
{
    let kind = note.kind;
    if is_brain(kind) {
        let n = fill_models(text, models, work, Place(0));
        return key_twice(work, n);
    }
    false
}

// The maps pass 10, 11 and 12, and the work space is long enough for each.
pub fn any_twice(text: &[u8], maps: Maps, judged: Judged, work: &mut [u64]) -> bool
    requires { AllFine text.now maps judged (length work.old) }
    ensures { ToldAll text.now maps work.old result work.new }
{
    for i in 0..maps.count {
        let note = nth(maps, i);
        let models = models_held(judged, i);
        if map_twice(text, note, models, work) {
            return true;
        }
    }
    false
}
