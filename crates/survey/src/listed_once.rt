// Condition 8: some dimension is not listed exactly once, or a listed one does not exist.
ghost use Rattle.std.specs.Prelude.{◌≡◌, min, eqb, length};
ghost use Rattle.lists.specs.Lists.{count};
ghost use Rattle.nodes.specs.Places.{the};
ghost use Rattle.cifti.specs.Conditions.{listed_dimensions, dimensions_wrong};
ghost use Rattle.maps.specs.Listed.{wanted};
ghost use Rattle.maps.specs.Ready.{matrix_maps, maps_at};
ghost use Rattle.maps.specs.ListedOnce.{Asking, Surveyed};

use maps::survey::{Maps, nth};

fn capped(n: u64) -> u64
    ensures { result ≡ min 2 n }
{
    if n < 2 { n } else { 2 }
}

// How often the maps list the dimension, told up to twice.
fn listed(text: &[u8], maps: Maps, d: usize) -> u64
    requires { Asking text.now maps d }
    ensures { result ≡ min 2 (count (eqb d) (listed_dimensions (maps_at text.now maps))) }
{
    let mut n = 0;
    for i in 0..maps.count {
        let note = nth(maps, i);
        let lists = note.lists;
        n = capped(n + lists.has[d]);
    }
    n
}

fn times_wanted(n: usize, d: usize) -> u64
    ensures { result ≡ wanted n d }
{
    if d < n { 1 } else { 0 }
}

pub(crate) fn dimensions_wrong(text: &[u8], matrix: usize, maps: Maps, lengths: &[u64]) -> bool
    requires { Surveyed text.now matrix maps lengths.now }
    ensures { result ≡ dimensions_wrong lengths.now (matrix_maps (the text.now matrix)) }
{
    if 3 < maps.count {
        return true;
    }
    let n = lengths.len();
    for d in 0..10 {
        if listed(text, maps, d) != times_wanted(n, d) {
            return true;
        }
    }
    false
}
