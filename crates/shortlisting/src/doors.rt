// The three doors of the short list.
ghost use Rattle.shortlist.specs.Making.{Lists};
ghost use Rattle.shortlist.specs.Asking.{Tells, Seeks};

use super::entries::seen;
use super::runs::made_of;
use super::search::{begin, begin_record, sought, told};
use records::Index;
use shortlist::{ListFault, Model, SearchFault, Told};

// The models of the records of one brain map: their runs of one type and structure, in order of first index.
pub fn model_list(records: &[u64], models: &mut [Model]) -> Result<usize, ListFault>
    ensures { Lists records.now models.old result models.new }
{
    let made = made_of(records, models.len())?;
    let count = made.count;
    models[..count].copy_from_slice(&made.models[..count]);
    Ok(count)
}

// The type and structure at an index, from the list alone.
pub fn structure_at(models: &[Model], index: Index) -> Result<Told, SearchFault>
    ensures { Tells models.now index.0 result }
{
    let found = seen(models, begin(index, 0, 0))?;
    told(found)
}

// The index of a record, looked for only in the stretch of its own type and structure.
pub fn index_of(models: &[Model], records: &[u64], number: u64) -> Result<Index, SearchFault>
    ensures { Seeks models.now records.now number result }
{
    let found = seen(models, begin_record(number, records.len()))?;
    sought(records, found, number)
}
