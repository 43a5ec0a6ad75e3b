// THE ONE PLACE between the front and the read: the lengths of the header, as the read is given them.
ghost use Rattle.std.specs.Prelude.{◌≡◌};
ghost use Rattle.file_reader.specs.Whole.{handed_on};

use nifti::Front;

pub(crate) fn handed_on(said: Front) -> [u64; 3]
    ensures { result ≡ handed_on said }
{
    said.lengths
}
