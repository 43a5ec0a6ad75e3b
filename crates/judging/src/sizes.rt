// The volume of a brain map.
ghost use Rattle.std.specs.Prelude.{◌≡◌};
ghost use Rattle.nodes.specs.Places.{the};
ghost use Rattle.cifti.specs.Maps.{map_of, sizes_by};
ghost use Rattle.models.specs.Sizes.{VolumeAt, sizes_at};
ghost use Rattle.models.specs.Sizes.{VolumeNoted};
ghost use Rattle.models.specs.Verdicts.{volume_from};

use inside::attributes::attribute;
use maps::limits::MOST_LENGTH;
use maps::survey::Seen;
use models::volume::Sizes;
use number_values::three_lengths;

// The sizes of the Volume at `at`.
fn sizes_at(text: &[u8], at: usize) -> Sizes
    requires { VolumeAt text.now at }
    ensures { volume_from result ≡ sizes_by (sizes_at (the text.now at)) }
{
    match attribute(text, at, b"VolumeDimensions") {
        Some(v) => match three_lengths(text, v, MOST_LENGTH, MOST_LENGTH, MOST_LENGTH) {
            Some(l) => Sizes {
                i: l.i,
                j: l.j,
                k: l.k,
            },
            None => Sizes { i: 0, j: 0, k: 0 },
        },
        None => Sizes { i: 0, j: 0, k: 0 },
    }
}

// The sizes of the volume of the map at `map`, 0 where it has none.
pub(crate) fn volume_sizes(text: &[u8], map: usize, volume: Seen) -> Sizes
    requires { VolumeNoted text.now map volume }
    ensures { volume_from result ≡ (map_of (the text.now map)).volume }
{
    if volume.found {
        return sizes_at(text, volume.at);
    }
    Sizes { i: 0, j: 0, k: 0 }
}
