// Numbers of four and eight bytes, in either order.
ghost use Rattle.std.specs.Prelude.{◌≡◌, ◌+◌, ◌≤◌, length, take, drop};
ghost use Rattle.nifti.specs.Fields.{ordered, number_at, signed};

use nifti::Order;

// The bytes of a number, the most significant first.
fn ordered<const N: usize>(file: &[u8], at: usize, order: Order) -> [u8; N]
    requires { at + N ≤ length file.now }
    ensures { result ≡ ordered order (take N (drop at file.now)) }
{
    let mut bytes = [0; N];
    bytes.copy_from_slice(&file[at..at + N]);
    match order {
        Order::MostFirst => bytes,
        Order::LeastFirst => {
            bytes.reverse();
            bytes
        }
    }
}

pub(crate) fn four(file: &[u8], at: usize, order: Order) -> u32
    requires { at + 4 ≤ length file.now }
    ensures { result ≡ number_at order 4 at file.now }
{
    u32::from_be_bytes(ordered(file, at, order))
}

// In two's complement.
pub(crate) fn eight(file: &[u8], at: usize, order: Order) -> i64
    requires { at + 8 ≤ length file.now }
    ensures { result ≡ signed 8 (number_at order 8 at file.now) }
{
    i64::from_be_bytes(ordered(file, at, order))
}
