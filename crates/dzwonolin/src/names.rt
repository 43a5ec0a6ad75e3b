// All names of a map: two numbers a name, where it starts in the text and its length.
ghost use Rattle.dzwonolin.specs.AllNames.{MapNamesFlat};

use all_names::map_names;
use flat::tell_one;

pub fn dz_map_names(
    text: &[u8],
    lengths: &[u64],
    dimension: u64,
    places: &mut [u64],
    count: &mut [u64],
) -> u64
    ensures { MapNamesFlat text.now lengths.now dimension places.old count.old result
        places.new count.new }
{
    let said = map_names(text, lengths, dimension, places);
    tell_one(count, said.value);
    said.number
}
