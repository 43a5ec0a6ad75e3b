// Condition 4: the root is not CIFTI with Version `2`.
ghost use Rattle.std.specs.Prelude.{◌≡◌};
ghost use Rattle.nodes.specs.Places.{Stands, the};
ghost use Rattle.cifti.specs.Conditions.{root_wrong};

use inside::names::name_is;
use inside::values::attribute_is;

pub(crate) fn root_wrong(text: &[u8], root: usize) -> bool
    requires { Stands text.now root }
    ensures { result ≡ root_wrong (the text.now root) }
{
    if name_is(text, root, b"CIFTI") {
        return !attribute_is(text, root, b"Version", b"2");
    }
    true
}
