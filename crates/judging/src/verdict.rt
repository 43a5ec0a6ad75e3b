// Conditions 11 and 12 of one map, and 14 where its locations are seen to be apart.
ghost use Rattle.nodes.specs.Places.{the};
ghost use Rattle.cifti.specs.Maps.{map_of};
ghost use Rattle.models.specs.Judged.{ListsTold};
ghost use Rattle.models.specs.Judging.{Listable};

use super::ranges::ranges_tile;
use super::sizes::volume_sizes;
use maps::survey::Seen;
use marked_lists::listing::Verdict;
use marked_lists::marked_lists;
use models::gather::Models;

// The models of the brain map at `map` are gathered, and its Volume and its length are noted.
pub(crate) fn lists_verdict(
    text: &[u8],
    map: usize,
    models: Models,
    volume: Seen,
    length: u64,
    work: &mut [u64],
) -> Verdict
    requires { Listable text.now map models volume }
    ensures { ListsTold (map_of (the text.now map)) work.old result.number result.apart work.new }
{
    if !ranges_tile(models) {
        return Verdict {
            number: 11,
            apart: false,
        };
    }
    let sizes = volume_sizes(text, map, volume);
    marked_lists(text, models, sizes, length, work)
}
