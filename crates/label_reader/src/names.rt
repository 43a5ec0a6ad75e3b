// The name of a key: the number of its refusal, where the name stands in the text, and the part of the text that is the name.
ghost use Rattle.cifti.specs.Labels.{LabelNumber, LabelPart};
ghost use Rattle.label_reader.specs.Names.{InTable, LabelPlaced};

use super::before::number_before;
use inside::texts::written;
use inside::ways::behind_tag;
use label_table::label_with;
use map_names::{NamePlace, named_there};
use records::Index;

// The first Label of the table at `at` that has the key.
fn place_in(text: &[u8], at: usize, key: i32) -> NamePlace
    ensures { InTable text.now at key result }
{
    match label_with(text, at, key) {
        Some(k) => {
            let part = written(text, k);
            NamePlace {
                number: 0,
                start: behind_tag(text, k),
                length: part.len(),
            }
        }
        None => NamePlace {
            number: 19,
            start: 0,
            length: 0,
        },
    }
}

// The number of the refusal, or 0, and then the start of the name and its length.
pub fn label_place(
    text: &[u8],
    lengths: &[u64],
    dimension: u64,
    index: Index,
    key: i32,
) -> NamePlace
    ensures { LabelPlaced text.now lengths.now dimension index.0 key result }
{
    let n = number_before(text, lengths);
    if n != 0 {
        return NamePlace {
            number: n,
            start: 0,
            length: 0,
        };
    }
    match named_there(text, dimension, index, b"LabelTable") {
        Some(t) => place_in(text, t, key),
        None => NamePlace {
            number: 18,
            start: 0,
            length: 0,
        },
    }
}

pub fn label_name_number(
    text: &[u8],
    lengths: &[u64],
    dimension: u64,
    index: Index,
    key: i32,
) -> u64
    ensures { LabelNumber text.now lengths.now dimension index.0 key result }
{
    let said = label_place(text, lengths, dimension, index, key);
    said.number
}

// What is written between the tags of the Label, undecoded; nothing where the name is refused.
pub fn label_name<'t>(
    text: &'t [u8],
    lengths: &[u64],
    dimension: u64,
    index: Index,
    key: i32,
) -> &'t [u8]
    ensures { LabelPart text.now lengths.now dimension index.0 key result.now }
{
    let said = label_place(text, lengths, dimension, index, key);
    let from = said.start;
    let to = from + said.length;
    &text[from..to]
}
