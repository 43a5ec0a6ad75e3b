// The labels of a text, for C.
ghost use Rattle.dzwonolin.specs.Labels.{KeysFlat, LabelsFlat};

use flat::{tell_one, tell_two};
use label_reader::{label_keys, label_place};
use records::Index;

pub fn dz_label_keys(
    text: &[u8],
    lengths: &[u64],
    dimension: u64,
    index: u64,
    keys: &mut [i32],
    count: &mut [u64],
) -> u64
    ensures { KeysFlat text.now lengths.now dimension index keys.old count.old result
        keys.new count.new }
{
    let keyed = label_keys(text, lengths, dimension, Index(index), keys);
    tell_one(count, keyed.count as u64);
    keyed.number
}

pub fn dz_label_name(
    text: &[u8],
    lengths: &[u64],
    dimension: u64,
    index: u64,
    key: i32,
    part: &mut [u64],
) -> u64
    ensures { LabelsFlat text.now lengths.now dimension index key part.old result
        part.new }
{
    let said = label_place(text, lengths, dimension, Index(index), key);
    tell_two(part, said.start as u64, said.length as u64);
    said.number
}
