// The list of one model: 11, 12, and whether its locations are apart.
ghost use Rattle.std.specs.Prelude.{◌≡◌};
ghost use Rattle.nodes.specs.Places.{the};
ghost use Rattle.cifti.specs.Maps.{voxel, model_of};
ghost use Rattle.cifti.specs.Conditions.{outside};
ghost use Rattle.models.specs.Listings.{ModelKnown};
ghost use Rattle.models.specs.Numbers.{InForm, values_at};
ghost use Rattle.models.specs.Verdicts.{verdict_by, volume_from};
ghost use Rattle.marked_lists.specs.Told.{VerticesTold, VoxelsTold, ModelTold};

use super::places::{Grid, vertex_place, voxel_place};
use maps::fields::attribute_number;
use maps::limits::MOST_RECORDS;
use marks::mark;
use models::listing::{Triple, list_start, next_voxel};
use models::volume::Sizes;
use number_lists::{any_number, quick_number};
use numbers::Next;
use records::Vertex;

// The first of 11 and 12 that applies, or 0; and whether every place that was to be marked was new.
#[derive(Clone, Copy)]
pub struct Verdict {
    pub number: u64,
    pub apart: bool,
}

pub(crate) fn verdict_by(even: bool, out: bool) -> u64
    ensures { result ≡ verdict_by even out }
{
    if !even {
        return 11;
    }
    if out {
        return 12;
    }
    0
}

// The vertices that are listed from `start` on, of a surface of so many, marked from `first` on.
fn marked_vertices(
    text: &[u8],
    start: usize,
    length: u64,
    surface: u64,
    first: u64,
    work: &mut [u64],
) -> Verdict
    requires { InForm text.now start }
    ensures { VerticesTold length surface (values_at text.now start) work.old result work.new }
{
    let mut n: u64 = 0;
    let mut out = false;
    let mut apart = true;
    let mut i = start;
    loop {
        let quick = quick_number(text, i);
        if quick != 0 {
            n += 1;
            out = out | !(quick / 16 < surface);
            let new = mark(work, vertex_place(first, Vertex(quick / 16)));
            apart = apart & new;
            i = i + (quick % 16) as usize;
        } else {
            match any_number(text, i) {
                Next::Number(v, j) => {
                    n += 1;
                    out = out | !(v < surface);
                    let new = mark(work, vertex_place(first, Vertex(v)));
                    apart = apart & new;
                    i = j;
                }
                Next::End => {
                    return Verdict {
                        number: verdict_by(n == length, out),
                        apart: apart,
                    };
                }
                Next::Bad => {
                    return Verdict {
                        number: 0,
                        apart: false,
                    };
                }
            }
        }
    }
}

fn is_outside(i: u64, j: u64, k: u64, sizes: Sizes) -> bool
    ensures { result ≡ outside (volume_from sizes) (voxel i j k) }
{
    !((i < sizes.i) & ((j < sizes.j) & (k < sizes.k)))
}

// The voxels that are listed from `start` on.
fn marked_voxels(
    text: &[u8],
    start: usize,
    length: u64,
    sizes: Sizes,
    grid: Grid,
    work: &mut [u64],
) -> Verdict
    requires { InForm text.now start }
    ensures { VoxelsTold length (volume_from sizes) grid (values_at text.now start) work.old result
        work.new }
{
    let mut voxels: u64 = 0;
    let mut out = false;
    let mut apart = true;
    let mut at = start;
    loop {
        match next_voxel(text, at) {
            Triple::Voxel(i, j, k, behind) => {
                voxels += 1;
                out = out | is_outside(i, j, k, sizes);
                let new = mark(work, voxel_place(grid, i, j, k));
                apart = apart & new;
                at = behind;
            }
            Triple::End => {
                return Verdict {
                    number: verdict_by(voxels == length, out),
                    apart: apart,
                };
            }
            Triple::Cut => {
                return Verdict {
                    number: 11,
                    apart: false,
                };
            }
        }
    }
}

// The list of the model at `at`, whose length and kind are known; the marks of a surface begin at `first`.
pub(crate) fn marked_list(
    text: &[u8],
    at: usize,
    length: u64,
    kind: u64,
    sizes: Sizes,
    grid: Grid,
    first: u64,
    work: &mut [u64],
) -> Verdict
    requires { ModelKnown text.now at length kind }
    ensures { ModelTold (volume_from sizes) grid (model_of (the text.now at)) work.old result work.new }
{
    match list_start(text, at) {
        Some(i) => {
            if 32 <= kind {
                return marked_voxels(text, i, length, sizes, grid, work);
            }
            let surface = attribute_number(text, at, b"SurfaceNumberOfVertices", 1, MOST_RECORDS);
            marked_vertices(text, i, length, surface, first, work)
        }
        None => Verdict {
            number: 11,
            apart: false,
        },
    }
}
