// Bytes of a stream: its next ones, in their order. Which bytes standard input has is the system's.
ghost use Rattle.std.specs.Prelude.{length};
ghost use Rattle.input.specs.Arrived.{Arrived, Took};

use std::io::Read;

// How many bytes came, or that a read failed.
#[derive(Clone, Copy)]
pub struct Came {
    pub count: usize,
    pub failed: bool,
}

// Until the bytes lent are full, or the input ends.
pub fn read_bytes<R: Read>(from: &mut R, bytes: &mut [u8]) -> Came
    ensures arrived { Arrived (length bytes.new) result }
    ensures took { Took (R.remaining from.old) (R.remaining from.new) bytes.new result }
{
    let mut n = 0;
    while n < bytes.len() {
        match from.read(&mut bytes[n..]) {
            Ok(more) => {
                if more == 0 {
                    return Came {
                        count: n,
                        failed: false,
                    };
                }
                n += more;
            }
            Err(_) => {
                return Came {
                    count: 0,
                    failed: true,
                };
            }
        }
    }
    Came {
        count: n,
        failed: false,
    }
}
