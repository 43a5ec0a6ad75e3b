// The header by its fields: 20 and 21; the lengths.
ghost use Rattle.std.specs.Prelude.{◌≡◌, true, ◌≤◌, ◌<◌, pos, length, MatchResult};
ghost use Rattle.lists.specs.Lists.{all_below};
ghost use Rattle.nifti.specs.File.{order_of, dim, offset, front_stands, no_front};
ghost use Rattle.nifti.specs.File.{one_at, length_stands, dims_stand, length_count, length_at};
ghost use Rattle.nifti.specs.Front.{Standing};
ghost use Rattle.nifti.specs.Header.{OrderKnown, lengths_in};
ghost use Rattle.nifti.specs.declared.Refusal.TheVariants.{NoFront};

use super::fields::{eight, four};
use nifti::{Order, Refusal};

const MAGIC: &[u8] = b"n+2\0\r\n\x1a\n";

// Where the list begins.
pub(crate) const LIST: usize = 544;

// Where the data offset stands.
const OFFSET: usize = 168;

// Where dim[0] stands.
const DIMS: usize = 16;

// A file whose header is that of a NIfTI-2 file, and the order of its numbers.
#[derive(Clone, Copy)]
pub(crate) struct Header<'a> {
    pub(crate) file: &'a [u8],
    pub(crate) order: Order,
    ghost standing: { Standing file.now order },
}

fn order_of(file: &[u8]) -> Order
    requires { 544 ≤ length file.now }
    ensures { result ≡ order_of file.now }
{
    if four(file, 0, Order::MostFirst) == 540 {
        Order::MostFirst
    } else {
        Order::LeastFirst
    }
}

// The size field, the magic and the data offset.
fn front_stands(file: &[u8], order: Order) -> bool
    requires { OrderKnown file.now order }
    ensures { result ≡ front_stands file.now }
{
    four(file, 0, order) == 540
        && &file[4..12] == MAGIC
        && eight(file, OFFSET, order) >= LIST as i64
}

impl<'a> Header<'a> {
    pub(crate) fn of(file: &'a [u8]) -> Result<Header<'a>, Refusal>
        ensures { MatchResult result (λ h. h.file.now ≡ file.now)
            (λ e. (e ≡ NoFront) × (no_front file.now ≡ true)) }
    {
        if file.len() < LIST {
            return Err(Refusal::NoFront);
        }
        let order = order_of(file);
        if !front_stands(file, order) {
            return Err(Refusal::NoFront);
        }
        Ok(Header { file, order })
    }

    // Where the list ends.
    pub(crate) fn end(&self) -> usize
        ensures { offset self.now.file.now ≡ pos result }
    {
        eight(self.file, OFFSET, self.order) as usize
    }

    fn dim(&self, n: usize) -> i64
        requires { n < 8 }
        ensures { result ≡ dim self.now.file.now n }
    {
        eight(self.file, DIMS + 8 * n, self.order)
    }

    // As many as dim[0] says; 0 where it says another number.
    pub(crate) fn length_count(&self) -> usize
        ensures { result ≡ length_count self.now.file.now }
    {
        match self.dim(0) {
            6 => 2,
            7 => 3,
            _ => 0,
        }
    }

    // dim[1] to dim[4].
    fn ones_stand(&self) -> bool
        ensures { result ≡ all_below 4 (one_at self.now.file.now) }
    {
        (0..4).all(|i| self.dim(1 + i) == 1)
    }

    fn lengths_stand(&self, count: usize) -> bool
        requires { count ≤ 3 }
        ensures { result ≡ all_below count (length_stands self.now.file.now) }
    {
        (0..count).all(|i| self.dim(5 + i) >= 1)
    }

    // The length on a dimension; 0 where there is none.
    fn length_at(&self, i: usize) -> u64
        requires { i < 3 }
        ensures { result ≡ length_at self.now.file.now i }
    {
        if i < self.length_count() {
            self.dim(5 + i).max(0) as u64
        } else {
            0
        }
    }

    fn dims_stand(&self) -> bool
        ensures { result ≡ dims_stand self.now.file.now }
    {
        let count = self.length_count();
        count > 0 && self.ones_stand() && self.lengths_stand(count)
    }

    pub(crate) fn lengths(&self) -> Result<[u64; 3], Refusal>
        ensures { result ≡ lengths_in self.now.file.now }
    {
        if !self.dims_stand() {
            return Err(Refusal::NoMatrix);
        }
        Ok([self.length_at(0), self.length_at(1), self.length_at(2)])
    }
}
