// Bytes of a stream, and behind those that fill their room a byte more, to see whether more come.
ghost use Rattle.std.specs.Prelude.{◌+◌, length};
ghost use Rattle.input.specs.Arrived.{Arrived, TookPast};

use super::came::{Came, read_bytes};
use std::io::Read;

pub fn read_past<R: Read>(from: &mut R, bytes: &mut [u8]) -> Came
    ensures arrived { Arrived (length bytes.new + 1) result }
    ensures took { TookPast (R.remaining from.old) (R.remaining from.new) bytes.new result }
{
    let body = read_bytes(from, bytes);
    if body.failed | (body.count < bytes.len()) {
        return body;
    }
    let mut byte = [0u8; 1];
    let past = read_bytes(from, &mut byte);
    if past.failed {
        return Came {
            count: 0,
            failed: true,
        };
    }
    Came {
        count: body.count + past.count,
        failed: false,
    }
}
