// The ranges of a map's models: condition 11's second half, by a chain over the arrays.
ghost use Rattle.std.specs.Prelude.{◌≡◌};
ghost use Rattle.lists.specs.Ranges.{begins_at, sum_of, tiling};
ghost use Rattle.models.specs.Gathered.{Sized};
ghost use Rattle.models.specs.Ranges.{Ranged, ranges_of, range_if};

use models::gather::Models;
use records::Index;

// How many indices the models count.
fn sum(models: Models) -> u64
    requires { Ranged models }
    ensures { result ≡ sum_of (ranges_of models) }
{
    let mut n: u64 = 0;
    for i in 0..models.count {
        n += models.length[i];
    }
    n
}

// The first model whose range begins at the index; the count of models where there is none.
fn begins_at(models: Models, index: Index) -> usize
    requires { Sized models }
    ensures { begins_at index.0 (ranges_of models) ≡ range_if models result }
{
    for i in 0..models.count {
        if models.offset[i] == index.0 {
            return i;
        }
    }
    models.count
}

// Every index below the sum lies in exactly one range: from 0, each range goes on where the last one ended, up to the sum.
pub(crate) fn ranges_tile(models: Models) -> bool
    requires { Ranged models }
    ensures { result ≡ tiling (ranges_of models) }
{
    let end = sum(models);
    let mut index: u64 = 0;
    while index < end {
        let i = begins_at(models, Index(index));
        if models.count <= i {
            return false;
        }
        index += models.length[i];
    }
    index == end
}
