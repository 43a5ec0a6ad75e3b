// The records of a model.
ghost use Rattle.std.specs.Prelude.{◌≡◌};
ghost use Rattle.records.specs.Fill.{wrote};
ghost use Rattle.nodes.specs.Places.{the};
ghost use Rattle.cifti.specs.Maps.{model_of};
ghost use Rattle.maps.specs.Table.{model_records};
ghost use Rattle.table.specs.Model.{ModelFillable};

use super::listing::{fill_vertices, fill_voxels};
use models::listing::list_start;
use records::Place;

// The records of the model at `model`, which is of this kind, one behind the other from `at` on.
pub(crate) fn fill_model(text: &[u8], model: usize, kind: u64, out: &mut [u64], at: Place)
    requires { ModelFillable text.now model kind out.old at.0 }
    ensures { out.new ≡ wrote at.0 (model_records (model_of (the text.now model))) out.old }
{
    match list_start(text, model) {
        Some(start) => {
            if 32 <= kind {
                fill_voxels(text, start, kind - 32, out, at);
                return;
            }
            fill_vertices(text, start, kind, out, at);
        }
        None => {}
    }
}
