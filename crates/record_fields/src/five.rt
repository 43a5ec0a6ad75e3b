// A record of a sheet of five: 40 bits, judged by its own layout, and moved by location into a record of 54.
ghost use Rattle.std.specs.Prelude.{◌≡◌};
ghost use Rattle.records.specs.Width.{five};
ghost use Rattle.records.specs.Record.{legal_in, widened};

use super::record::{surface_record, voxel_record};
use records::Vertex;

pub fn legal_five(r: u64) -> bool
    ensures { result ≡ legal_in five r }
{
    r / 1_099_511_627_776 + (1 - r / 549_755_813_888 % 2) * (r % 17_179_869_184 / 1_048_576) == 0
}

// The record of the same location. Both are made and one is chosen, so that no branch goes by the kind of the record.
pub fn widen(r: u64) -> u64
    ensures { result ≡ widened r }
{
    let structure = r / 17_179_869_184 % 32;
    let voxel = voxel_record(structure, r / 8_388_608 % 2048, r / 4096 % 2048, r % 4096);
    let surface = surface_record(structure, Vertex(r % 17_179_869_184));
    if r / 549_755_813_888 % 2 == 1 {
        voxel
    } else {
        surface
    }
}
