// Conditions 10, 11 and 12 over all maps: the models of each are gathered once, and each list is read once. Where all locations of a map
// are seen to be apart, that reading decides 14 too.
ghost use Rattle.std.specs.Prelude.{◌≡◌, ◌<◌};
ghost use Rattle.lists.specs.Refusals.{sooner_refusal};
ghost use Rattle.maps.specs.Survey.{Noted};
ghost use Rattle.maps.specs.Ready.{Ready};
ghost use Rattle.models.specs.Judged.{RulesIn, JudgesIn, with_ruling};

use super::gather::models_of;
use super::verdict::lists_verdict;
use answers::is_brain;
use maps::survey::{MapNote, Maps, nth};
use models::judge::{Judged, Ruling, no_models};

fn first_of(a: u64, b: u64) -> u64
    ensures { result ≡ sooner_refusal a b }
{
    if a == 0 {
        return b;
    }
    if b == 0 {
        return a;
    }
    if a < b { a } else { b }
}

// The first of 10, 11 and 12 that applies to the map, or 0, and its models.
fn map_rule(text: &[u8], note: MapNote, work: &mut [u64]) -> Ruling
    requires { Noted text.now note }
    ensures { RulesIn text.now note work.old result work.new }
{
    let kind = note.kind;
    if is_brain(kind) {
        let models = models_of(text, note.at);
        if models.shared {
            return Ruling {
                number: 10,
                apart: false,
                models: models,
            };
        }
        let volume = note.volume;
        let v = lists_verdict(text, note.at, models, volume, note.length, work);
        return Ruling {
            number: v.number,
            apart: v.apart,
            models: models,
        };
    }
    Ruling {
        number: 0,
        apart: true,
        models: no_models(),
    }
}

// With what is ruled of the i-th map.
fn with_ruling(judged: Judged, i: usize, ruling: Ruling) -> Judged
    requires { i < 3 }
    ensures { result ≡ with_ruling judged i ruling }
{
    let models = ruling.models;
    let mut more = judged;
    more.number = first_of(judged.number, ruling.number);
    more.apart = judged.apart & ruling.apart;
    more.each[i] = models;
    more
}

// All maps are ready; the work space is lent for marks.
pub fn judged(text: &[u8], maps: Maps, work: &mut [u64]) -> Judged
    requires { Ready text.now maps }
    ensures { JudgesIn text.now maps work.old result work.new }
{
    let none = no_models();
    let mut all = Judged {
        number: 0,
        apart: true,
        each: [none; 3],
    };
    for i in 0..maps.count {
        let note = nth(maps, i);
        all = with_ruling(all, i, map_rule(text, note, work));
    }
    all
}
