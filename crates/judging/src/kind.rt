// The kind of a model: its type and its structure.
ghost use Rattle.std.specs.Prelude.{◌≡◌};
ghost use Rattle.nodes.specs.Places.{the};
ghost use Rattle.cifti.specs.Maps.{model_of};
ghost use Rattle.models.specs.Kind.{type_and_structure, ModelAt};

use super::structures::structure_number;
use maps::fields::attribute_is;

// The type and the structure of the model at `at`, in one number.
pub(crate) fn kind_at(text: &[u8], at: usize) -> u64
    requires { ModelAt text.now at }
    ensures { result ≡ type_and_structure (model_of (the text.now at)) }
{
    let structure = structure_number(text, at);
    if attribute_is(text, at, b"ModelType", b"CIFTI_MODEL_TYPE_VOXELS") {
        return 32 + structure;
    }
    structure
}
