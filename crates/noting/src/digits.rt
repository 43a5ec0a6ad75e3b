// The dimensions that a map lists.
ghost use Rattle.nodes.specs.Places.{the};
ghost use Rattle.nodes.specs.Values.{value_there};
ghost use Rattle.cifti.specs.Maps.{dimensions_of};
ghost use Rattle.maps.specs.Sums.{MapAt};
ghost use Rattle.maps.specs.Digits.{CountsNumbers};
ghost use Rattle.maps.specs.Seen.{Grown, CountsDigits};

use maps::dims::Dims;

fn one_more(dims: Dims, b: u8) -> Dims
    ensures { Grown b dims result }
{
    if b < b'0' {
        return dims;
    }
    if b'9' < b {
        return dims;
    }
    let d = (b - b'0') as usize;
    let mut next = dims;
    if next.has[d] < 2 {
        next.has[d] = next.has[d] + 1;
    }
    next
}

fn digits_at(text: &[u8], v: usize) -> Dims
    ensures { CountsDigits (value_there text.now v) result }
{
    let mut dims = Dims { has: [0; 10] };
    if text.len() <= v {
        return dims;
    }
    let q = text[v];
    let mut i = v + 1;
    loop {
        match inside::values::decoded(text, i, q) {
            Some((b, j)) => {
                dims = one_more(dims, b);
                i = j;
            }
            None => {
                return dims;
            }
        }
    }
}

// How often the map at `at` lists each dimension, told up to twice.
pub(crate) fn dimensions_of(text: &[u8], at: usize) -> Dims
    requires { MapAt text.now at }
    ensures { CountsNumbers (dimensions_of (the text.now at)) result }
{
    match inside::attributes::attribute(text, at, b"AppliesToMatrixDimension") {
        Some(v) => digits_at(text, v),
        None => Dims { has: [0; 10] },
    }
}
