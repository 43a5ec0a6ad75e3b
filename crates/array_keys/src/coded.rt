// The next key of four bytes in Base64.
ghost use Rattle.std.specs.Prelude.{◌≡◌, ◌+◌, ◌*◌, ◌%◌, ◌^◌, ◌<◌, ◌≤◌};
ghost use Rattle.array_keys.specs.Ahead.{KeyTold, encoding_if};
ghost use Rattle.array_keys.specs.Gathered.{kept_bytes, BytesRead, BytesGathered};

use super::fours::{four_key, top_of};
use super::{KeyPlace, NextKey, place};
use base64_reader::{Group, LetterValues, any_group, quick_bits};

// How many bytes are held: three at most.
fn kept_bytes(bytes: usize) -> usize
    ensures { result ≡ kept_bytes bytes }
{
    if bytes < 4 { bytes } else { 0 }
}

// The last three bytes held, and `count` bytes more behind them.
fn more_held(held: u64, more: u64, count: usize) -> u64
    requires { BytesRead more count }
    ensures { result ≡ held % 16777216 * 256 ^ count + more }
{
    let last = held % 16777216;
    match count {
        3 => last * 16777216 + more,
        2 => last * 65536 + more,
        _ => last * 256 + more,
    }
}

// Reads on until four bytes and more are held, or there are no more.
fn gathered(text: &[u8], from: KeyPlace, values: &LetterValues) -> KeyPlace
    ensures { BytesGathered text.now from result }
{
    let mut at = from.at;
    let mut held = from.held;
    let mut bytes = kept_bytes(from.bytes);
    while bytes < 4 {
        let bits = quick_bits(text, at, values);
        if bits < 16777216 {
            held = held % 16777216 * 16777216 + bits;
            bytes += 3;
            at += 4;
        } else {
            let Group::Bytes(v, n, j) = any_group(text, at, values) else {
                return place(at, held, bytes);
            };
            held = more_held(held, v, n);
            bytes += n;
            at = j;
        }
    }
    place(at, held, bytes)
}

// The next key, its four bytes in either order.
pub(crate) fn coded_next(
    text: &[u8],
    from: KeyPlace,
    values: &LetterValues,
    little: bool,
) -> NextKey
    ensures { KeyTold (encoding_if little) text.now from result }
{
    let found = gathered(text, from, values);
    if found.bytes < 4 {
        return NextKey::End(found.bytes);
    }
    let rest = found.bytes - 4;
    NextKey::Key(
        four_key(top_of(found.held, rest), little),
        place(found.at, found.held, rest),
    )
}
