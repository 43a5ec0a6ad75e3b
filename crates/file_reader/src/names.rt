// The name of a map of a file: the number of its refusal, where it stands in the file, and the part of the file that is the name.
ghost use Rattle.std.specs.Prelude.{◌≡◌, ◌+◌, ◌≤◌, ◌<◌, ◌^◌, length, take};
ghost use Rattle.map_names.specs.Placed.{NamePlaced};
ghost use Rattle.file_reader.specs.Whole.{moved_by, FilePlaced, FileNumber, FileName};

use super::given::handed_on;
use front::front;
use map_names::NamePlace;
use reader::map_name_place;
use records::Index;

fn place_so(text: &[u8], lengths: &[u64], count: usize, dimension: u64, index: Index) -> NamePlace
    requires { count ≤ length lengths.now }
    ensures { NamePlaced text.now (take count lengths.now) dimension index.0 result }
{
    map_name_place(text, &lengths[..count], dimension, index)
}

// A name that stands in the part, by its place in the file.
fn moved(name: NamePlace, from: usize) -> NamePlace
    requires { from + name.start < 2 ^ 64 }
    ensures { result ≡ moved_by from name }
{
    let number = name.number;
    if number != 0 {
        return name;
    }
    NamePlace {
        number: 0,
        start: from + name.start,
        length: name.length,
    }
}

pub fn file_map_name_place(file: &[u8], dimension: u64, index: Index) -> NamePlace
    ensures { FilePlaced file.now dimension index.0 result }
{
    let said = front(file);
    let number = said.number;
    if number != 0 {
        return NamePlace {
            number: number,
            start: 0,
            length: 0,
        };
    }
    let from = said.start;
    let to = from + said.length;
    let lengths = handed_on(said);
    let name = place_so(
        &file[from..to],
        &lengths,
        said.count as usize,
        dimension,
        index,
    );
    moved(name, from)
}

pub fn file_map_name_number(file: &[u8], dimension: u64, index: Index) -> u64
    ensures { FileNumber file.now dimension index.0 result }
{
    let said = file_map_name_place(file, dimension, index);
    said.number
}

// What is written between the tags of the MapName, undecoded; nothing where the name is refused.
pub fn file_map_name(file: &[u8], dimension: u64, index: Index) -> &[u8]
    ensures { FileName file.now dimension index.0 result.now }
{
    let said = file_map_name_place(file, dimension, index);
    let from = said.start;
    let to = from + said.length;
    &file[from..to]
}
