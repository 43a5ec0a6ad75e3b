// Where each location is marked. Nothing is asked of the places but that one location has one place: that different ones seldom share a
// place is speed alone.
ghost use Rattle.std.specs.Prelude.{◌≡◌, ◌≤◌};
ghost use Rattle.cifti.specs.Maps.{voxel};
ghost use Rattle.marked_lists.specs.Places.{voxel_place, vertex_place};

use models::volume::Sizes;
use records::{Index, Vertex};
use std::num::wrapping_add_u64;

// A voxel is marked by the low bits of its numbers, which `i`, `j` and `k` leave: those of j from `row` on, those of k from `layer` on.
// `behind` is the first place behind them all.
#[derive(Clone, Copy)]
pub struct Grid {
    pub i: u64,
    pub j: u64,
    pub k: u64,
    pub row: u64,
    pub layer: u64,
    pub behind: u64,
}

pub(crate) fn voxel_place(grid: Grid, i: u64, j: u64, k: u64) -> u64
    ensures { result ≡ voxel_place grid (voxel i j k) }
{
    (i & grid.i) | (((j & grid.j) << (grid.row % 64)) | ((k & grid.k) << (grid.layer % 64)))
}

pub(crate) fn vertex_place(start: u64, vertex: Vertex) -> u64
    ensures { result ≡ vertex_place start vertex.0 }
{
    wrapping_add_u64(start, vertex.0)
}

// Where the marks of the surface begin whose first index is `first`: half a word for each index before it.
pub(crate) fn surface_start(grid: Grid, first: Index) -> u64 {
    wrapping_add_u64(grid.behind, first.0 << 5)
}

fn lesser(a: u64, b: u64) -> u64
    ensures { (result ≤ a) × (result ≤ b) }
{
    if a < b { a } else { b }
}

// How often n can be halved before it is 1, at most so often.
fn halvings(n: u64, most: u64) -> u64
    ensures { result ≤ most }
{
    let mut left = n;
    for count in 0..most {
        if left < 2 {
            return count;
        }
        left /= 2;
    }
    most
}

// The bits of the numbers below the size, 16 at most.
fn bits_below(size: u64) -> u64
    ensures { result ≤ 16 }
{
    if size < 2 {
        return 0;
    }
    halvings(size - 1, 15) + 1
}

// The number with so many low bits, 16 at most.
fn low_bits(bits: u64) -> u64
    requires { bits ≤ 16 }
{
    65535 >> (16 - bits)
}

// For a volume of these sizes in so many words: half of their bits for voxels, 2 to the 24th at most, shared out among the axes.
pub(crate) fn grid_for(sizes: Sizes, words: usize) -> Grid {
    let most = lesser(24, halvings(words as u64, 19) + 5);
    let k = lesser(bits_below(sizes.k), (most + 2) / 3);
    let j = lesser(bits_below(sizes.j), (most - k) / 2);
    let i = lesser(bits_below(sizes.i), most - k - j);
    Grid {
        i: low_bits(i),
        j: low_bits(j),
        k: low_bits(k),
        row: i,
        layer: i + j,
        behind: 1 << (i + j + k),
    }
}
