// The name of a map: the number of its refusal, where its name stands in the text, and the part of the text that is the name.
ghost use Rattle.cifti.specs.Names.{NameNumber, NamePart};
ghost use Rattle.map_names.specs.Placed.{NamePlaced};

use map_names::{NamePlace, place_of};
use survey::surveyed;

// The first of 1 to 9 and 18 that applies, or 0, and then the start of the name and its length.
pub fn map_name_place(
    text: &[u8],
    lengths: &[u64],
    dimension: u64,
    index: records::Index,
) -> NamePlace
    ensures { NamePlaced text.now lengths.now dimension index.0 result }
{
    let s = surveyed(text, lengths);
    let n = s.number;
    place_of(text, n, dimension, index)
}

pub fn map_name_number(text: &[u8], lengths: &[u64], dimension: u64, index: records::Index) -> u64
    ensures { NameNumber text.now lengths.now dimension index.0 result }
{
    let said = map_name_place(text, lengths, dimension, index);
    said.number
}

// What is written between the tags of the MapName, undecoded; nothing where the name is refused.
pub fn map_name<'t>(
    text: &'t [u8],
    lengths: &[u64],
    dimension: u64,
    index: records::Index,
) -> &'t [u8]
    ensures { NamePart text.now lengths.now dimension index.0 result.now }
{
    let said = map_name_place(text, lengths, dimension, index);
    let from = said.start;
    let to = from + said.length;
    &text[from..to]
}
