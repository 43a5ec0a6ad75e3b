// What is judged of the maps, with the models of each.
ghost use Rattle.std.specs.Prelude.{◌≡◌};
ghost use Rattle.models.specs.Judged.{no_models_lem, models_held};

use super::gather::Models;

// Of one map: the first of 10, 11 and 12 that applies to it, or 0; whether its locations were seen to be apart, which decides 14, or else
// 14 is not decided; and what was gathered of its models.
#[derive(Clone, Copy)]
pub struct Ruling {
    pub number: u64,
    pub apart: bool,
    pub models: Models,
}

// Of all maps: the first of 10, 11 and 12 that applies to some map, or 0; whether the locations of each map were seen to be apart; and what
// was gathered of the models of each.
#[derive(Clone, Copy)]
pub struct Judged {
    pub number: u64,
    pub apart: bool,
    pub each: [Models; 3],
}

pub fn no_models() -> Models
    ensures { result ≡ no_models_lem }
{
    Models {
        count: 0,
        shared: false,
        at: [0; 64],
        offset: [0; 64],
        length: [0; 64],
        kind: [0; 64],
    }
}

// What is held of the i-th map's models; none where there is no such map.
pub fn models_held(judged: Judged, i: usize) -> Models
    ensures { result ≡ models_held judged i }
{
    if i < 3 {
        return judged.each[i];
    }
    no_models()
}
