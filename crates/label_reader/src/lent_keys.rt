// The keys of the label table of a dimension and an index, in text order.
ghost use Rattle.cifti.specs.Labels.{Keys};
ghost use Rattle.label_reader.specs.Keys.{WrittenTo};

use super::before::number_before;
use label_table::{Filled, fill_keys, key_count};
use map_names::named_there;
use records::Index;

// The keys of the table at `at`, where there is room for them.
fn keys_from(text: &[u8], at: usize, keys: &mut [i32]) -> Filled
    ensures { WrittenTo text.now at keys.old result.number result.count keys.new }
{
    let n = key_count(text, at);
    if keys.len() < n {
        return Filled {
            number: 17,
            count: 0,
        };
    }
    fill_keys(text, at, keys);
    Filled {
        number: 0,
        count: n,
    }
}

pub fn label_keys(
    text: &[u8],
    lengths: &[u64],
    dimension: u64,
    index: Index,
    keys: &mut [i32],
) -> Filled
    ensures { Keys text.now lengths.now dimension index.0 keys.old result.number result.count
        keys.new }
{
    let n = number_before(text, lengths);
    if n != 0 {
        return Filled {
            number: n,
            count: 0,
        };
    }
    match named_there(text, dimension, index, b"LabelTable") {
        Some(t) => keys_from(text, t, keys),
        None => Filled {
            number: 18,
            count: 0,
        },
    }
}
