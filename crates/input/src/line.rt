// A line of a stream, byte by byte, so that nothing behind it is taken.
ghost use Rattle.std.specs.Prelude.{length};
ghost use Rattle.input.specs.Arrived.{Arrived, TookLine};

use super::came::Came;
use std::io::Read;

// Up to the first line feed. Three lengths take at most 24 bytes with it, and a longer line is refused whatever it says (`long_line`).
pub fn read_line<R: Read>(from: &mut R, line: &mut [u8]) -> Came
    ensures arrived { Arrived (length line.new) result }
    ensures took { TookLine (R.remaining from.old) (R.remaining from.new) line.new result }
{
    let mut n = 0;
    while n < line.len() {
        let mut byte = [0u8; 1];
        match from.read(&mut byte) {
            Ok(got) => {
                if got == 0 {
                    return Came {
                        count: n,
                        failed: false,
                    };
                }
            }
            Err(_) => {
                return Came {
                    count: 0,
                    failed: true,
                };
            }
        }
        line[n] = byte[0];
        n += 1;
        if byte[0] == b'\n' {
            return Came {
                count: n,
                failed: false,
            };
        }
    }
    Came {
        count: n,
        failed: false,
    }
}
