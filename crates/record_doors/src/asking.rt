// The short list asked.
ghost use Rattle.std.specs.Prelude.{◌≡◌, ◌+◌, ◌*◌, ◌≤◌, length};
ghost use Rattle.record_doors.specs.Numbers.{model_in, Seen, TellsNumbers, SeeksNumbers};

use records::Index;
use shortlist::{Model, Search, SearchFault, Told};
use shortlisting::{begin, begin_record, next, sought, told};

// The i-th model.
fn model_in(list: &[u64], i: usize) -> Model
    requires { 4 * i + 4 ≤ length list.now }
    ensures { result ≡ model_in list.now i }
{
    Model {
        first: Index(list[4 * i]),
        count: list[4 * i + 1],
        voxels: list[4 * i + 2] == 1,
        structure: list[4 * i + 3],
    }
}

// All models, taken in turn, up to one that makes the list bad; numbers that are no models are a bad list.
fn seen_numbers(list: &[u64], start: Search) -> Result<Search, SearchFault>
    ensures { Seen list.now start result }
{
    if list.len() % 4 != 0 {
        return Err(SearchFault::BadList);
    }
    let mut state = start;
    for i in 0..list.len() / 4 {
        if 1 < list[4 * i + 2] {
            return Err(SearchFault::BadList);
        }
        state = next(state, model_in(list, i))?;
    }
    Ok(state)
}

// The type and structure at an index.
pub(crate) fn structure_in(list: &[u64], index: Index) -> Result<Told, SearchFault>
    ensures { TellsNumbers list.now index.0 result }
{
    let found = seen_numbers(list, begin(index, 0, 0))?;
    told(found)
}

// The index of a record.
pub(crate) fn index_in(list: &[u64], records: &[u64], number: u64) -> Result<Index, SearchFault>
    ensures { SeeksNumbers list.now records.now number result }
{
    let found = seen_numbers(list, begin_record(number, records.len()))?;
    sought(records, found, number)
}
