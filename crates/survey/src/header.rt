// Conditions 1 to 9, which the table and the map names both ask.
ghost use Rattle.survey.specs.Header.{Surveys};

use super::lengths_agree::length_wrong;
use super::listed_once::dimensions_wrong;
use maps::survey::Maps;
use noting::{maps_of, no_maps};
use opening::opened;

// The number of the first that applies; where it is 0, the maps.
#[derive(Clone, Copy)]
pub struct Survey {
    pub number: u64,
    pub maps: Maps,
}

pub fn surveyed(text: &[u8], lengths: &[u64]) -> Survey
    ensures { Surveys text.now lengths.now result }
{
    let o = opened(text, lengths);
    let n = o.number;
    let m = o.matrix;
    if n != 0 {
        return Survey {
            number: n,
            maps: no_maps(),
        };
    }
    let maps = maps_of(text, m);
    if dimensions_wrong(text, m, maps, lengths) {
        return Survey {
            number: 8,
            maps: maps,
        };
    }
    if length_wrong(text, maps, lengths) {
        return Survey {
            number: 9,
            maps: maps,
        };
    }
    Survey {
        number: 0,
        maps: maps,
    }
}
