// The models of a brain map, gathered in one walk: condition 10.
ghost use Rattle.std.specs.Prelude.{◌≡◌};
ghost use Rattle.models.specs.Brain.{BrainAt};
ghost use Rattle.models.specs.Gathered.{ModelRoom, with_model, Gathers, offset_seen, length_seen};

use super::kind::kind_at;
use elements::children::{first_child, next_child};
use inside::names::name_is;
use maps::fields::attribute_number;
use maps::limits::MOST_RECORDS;
use models::gather::Models;

// With the model at `at`, which is of this kind, behind those that are there.
fn with_model(text: &[u8], at: usize, kind: u64, models: Models) -> Models
    requires { ModelRoom text.now at models }
    ensures { result ≡ with_model models at (offset_seen text.now at) (length_seen text.now at) kind }
{
    let n = models.count;
    let offset = attribute_number(text, at, b"IndexOffset", 0, MOST_RECORDS);
    let length = attribute_number(text, at, b"IndexCount", 1, MOST_RECORDS);
    let mut more = models;
    more.at[n] = at;
    more.offset[n] = offset;
    more.length[n] = length;
    more.kind[n] = kind;
    more.count = n + 1;
    more
}

// All models of the brain map at `map`, or that two share type and structure.
pub(crate) fn models_of(text: &[u8], map: usize) -> Models
    requires { BrainAt text.now map }
    ensures { Gathers text.now map result }
{
    let mut models = Models {
        count: 0,
        shared: false,
        at: [0; 64],
        offset: [0; 64],
        length: [0; 64],
        kind: [0; 64],
    };
    let mut seen = [false; 64];
    let mut kid = first_child(text, map);
    loop {
        match kid {
            Some(k) => {
                kid = next_child(text, k);
                if name_is(text, k, b"BrainModel") {
                    let kind = kind_at(text, k);
                    let place = kind as usize;
                    if seen[place] {
                        models.shared = true;
                        return models;
                    }
                    seen[place] = true;
                    models = with_model(text, k, kind, models);
                }
            }
            None => {
                return models;
            }
        }
    }
}
