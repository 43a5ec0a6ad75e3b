// The records of one list, written one behind the other.
ghost use Rattle.std.specs.Prelude.{◌≡◌, true, false};
ghost use Rattle.records.specs.Fill.{wrote};
ghost use Rattle.models.specs.Numbers.{values_at};
ghost use Rattle.table.specs.Listing.{ListWritable, records_listed};

use models::listing::{Triple, next_voxel};
use number_lists::{any_number, quick_number};
use numbers::Next;
use record_fields::{surface_record, voxel_record};
use records::{Place, Vertex};

// The vertices that are listed from `start` on.
pub(crate) fn fill_vertices(text: &[u8], start: usize, structure: u64, out: &mut [u64], at: Place)
    requires { ListWritable false structure text.now start at.0 out.old }
    ensures { out.new ≡ wrote at.0 (records_listed false structure (values_at text.now start))
        out.old }
{
    let mut i = start;
    let mut place = at.0;
    loop {
        let quick = quick_number(text, i);
        if quick != 0 {
            out[place] = surface_record(structure, Vertex(quick / 16));
            place += 1;
            i = i + (quick % 16) as usize;
        } else {
            match any_number(text, i) {
                Next::Number(v, behind) => {
                    out[place] = surface_record(structure, Vertex(v));
                    place += 1;
                    i = behind;
                }
                Next::End => {
                    return;
                }
                Next::Bad => {
                    return;
                }
            }
        }
    }
}

// The voxels that are listed from `start` on.
pub(crate) fn fill_voxels(text: &[u8], start: usize, structure: u64, out: &mut [u64], at: Place)
    requires { ListWritable true structure text.now start at.0 out.old }
    ensures { out.new ≡ wrote at.0 (records_listed true structure (values_at text.now start))
        out.old }
{
    let mut i = start;
    let mut next = at.0;
    loop {
        match next_voxel(text, i) {
            Triple::Voxel(x, y, z, behind) => {
                out[next] = voxel_record(structure, x, y, z);
                next += 1;
                i = behind;
            }
            Triple::End => {
                return;
            }
            Triple::Cut => {
                return;
            }
        }
    }
}
