// The records of all models of a map.
ghost use Rattle.std.specs.Prelude.{length};
ghost use Rattle.table.specs.Placing.{Placing, ModelsPlaced};

use super::model::fill_model;
use models::gather::Models;
use records::Place;

// Each model from `start` and its IndexOffset on; answers how many indices they count.
pub(crate) fn fill_models(text: &[u8], models: Models, out: &mut [u64], start: Place) -> usize
    requires { Placing text.now models (length out.old) start.0 }
    ensures { ModelsPlaced text.now models out.old start.0 result out.new }
{
    let mut n: usize = 0;
    for i in 0..models.count {
        let offset = models.offset[i] as usize;
        fill_model(
            text,
            models.at[i],
            models.kind[i],
            out,
            Place(start.0 + offset),
        );
        n += models.length[i] as usize;
    }
    n
}
