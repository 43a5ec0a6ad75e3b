// The short list made.
ghost use Rattle.std.specs.Prelude.{◌≡◌, ◌*◌, ◌≤◌, length};
ghost use Rattle.records.specs.Fill.{wrote};
ghost use Rattle.record_doors.specs.Numbers.{four, numbers_of, ListsNumbers};

use flat::put;
use shortlist::{ListFault, Model};
use shortlisting::made_of;

// The four numbers of a model.
fn row_of(model: Model) -> [u64; 4]
    ensures { result ≡ four model }
{
    [
        model.first.0,
        model.count,
        u64::from(model.voxels),
        model.structure,
    ]
}

// The models, four numbers each.
fn put_models(list: &mut [u64], models: &[Model])
    requires { 4 * length models.now ≤ length list.old }
    ensures { list.new ≡ wrote 0 (numbers_of models.now) list.old }
{
    for (i, model) in models.iter().enumerate() {
        put(list, 4 * i, &row_of(*model));
    }
}

// The models of the records of one brain map, in a list lent for as many whole models as fit.
pub(crate) fn list_numbers(records: &[u64], list: &mut [u64]) -> Result<usize, ListFault>
    ensures { ListsNumbers records.now list.old result list.new }
{
    let made = made_of(records, list.len() / 4)?;
    let count = made.count;
    put_models(list, &made.models[..count]);
    Ok(count)
}
