// The structures by their words.
ghost use Rattle.std.specs.Prelude.{◌≡◌};
ghost use Rattle.grammar.specs.Look.{attr};
ghost use Rattle.nodes.specs.Places.{Stands, the};
ghost use Rattle.cifti.specs.Words.{structures, number_in};

use inside::attributes::attribute;
use vocabulary::structure_named;

// The structure of the model at `at`; 32 where it names none.
pub(crate) fn structure_number(text: &[u8], at: usize) -> u64
    requires { Stands text.now at }
    ensures { result ≡ number_in structures (attr "BrainStructure" (the text.now at)) }
{
    match attribute(text, at, b"BrainStructure") {
        Some(v) => structure_named(text, v),
        None => 32,
    }
}
