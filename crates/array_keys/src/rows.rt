// Keys many at a time, into a lent slice: in Base64 three at a time, as long as there are plain letters.
ghost use Rattle.std.specs.Prelude.{◌≡◌, ◌+◌, ◌≤◌, leb, length};
ghost use Rattle.array_keys.specs.Ahead.{encoding_if};
ghost use Rattle.array_keys.specs.Rows.{RowTold, Run, bare_at, FourBits, with_three, ThreeTold};

use super::fours::four_key;
use super::{Encoding, KeyPlace, NextKey, key_next, place};
use base64_reader::{LetterValues, quick_bits};

// How many keys stand at the front of the slice, and the place behind them; where there is room for more, how many bytes are left over.
#[derive(Clone, Copy)]
pub struct KeyRow {
    pub count: usize,
    pub next: KeyPlace,
    pub spare: usize,
}

// So many more behind `at` are within the length.
fn fits_in(at: usize, more: usize, length: usize) -> bool
    ensures { result ≡ leb (at + more) length }
{
    more <= length && at <= length - more
}

// The three keys of four times 24 bits.
fn write_three(a: u64, b: u64, c: u64, d: u64, little: bool, n: usize, keys: &mut [i32])
    requires { (FourBits a b c d) × (n + 3 ≤ length keys.old) }
    ensures { keys.new ≡ with_three little a b c d n keys.old }
{
    keys[n] = four_key(a * 256 + b / 65536, little);
    keys[n + 1] = four_key(b % 65536 * 65536 + c / 256, little);
    keys[n + 2] = four_key(c % 256 * 16777216 + d, little);
}

// The three keys of sixteen plain letters, where such stand at `at`.
fn three_keys(
    text: &[u8],
    at: usize,
    values: &LetterValues,
    little: bool,
    n: usize,
    keys: &mut [i32],
) -> bool
    requires { n + 3 ≤ length keys.old }
    ensures { ThreeTold little text.now at n keys.old result keys.new }
{
    if !fits_in(at, 16, text.len()) {
        return false;
    }
    let a = quick_bits(text, at, values);
    let b = quick_bits(text, at + 4, values);
    let c = quick_bits(text, at + 8, values);
    let d = quick_bits(text, at + 12, values);
    if (16777216 <= a) | ((16777216 <= b) | ((16777216 <= c) | (16777216 <= d))) {
        return false;
    }
    write_three(a, b, c, d, little, n, keys);
    true
}

// Three keys at a time from the letters at `from` on, behind the first keys of the slice, while there are plain letters and room.
#[tactic(auto, using(crate::proofs::Laws::Rows::quickening))]
fn quick_keys(
    text: &[u8],
    from: usize,
    values: &LetterValues,
    little: bool,
    first: usize,
    keys: &mut [i32],
) -> KeyRow
    ensures { Run (encoding_if little) text.now (bare_at from) first keys.old result.next result.count
        keys.new }
{
    let mut at = from;
    let mut n = first;
    while fits_in(n, 3, keys.len()) && three_keys(text, at, values, little, n, keys) {
        n += 3;
        at += 16;
    }
    KeyRow {
        count: n,
        next: place(at, 0, 0),
        spare: 0,
    }
}

// The same in whatever encoding: none of words, and none where bytes are held.
fn quick_run(
    text: &[u8],
    encoding: Encoding,
    from: KeyPlace,
    values: &LetterValues,
    first: usize,
    keys: &mut [i32],
) -> KeyRow
    ensures { Run encoding text.now from first keys.old result.next result.count keys.new }
{
    match encoding {
        Encoding::Big if from.bytes == 0 => quick_keys(text, from.at, values, false, first, keys),
        Encoding::Little if from.bytes == 0 => quick_keys(text, from.at, values, true, first, keys),
        _ => KeyRow {
            count: first,
            next: from,
            spare: 0,
        },
    }
}

// Writes the keys from a place on, from the start of the slice, as many as it has room for. The values of letters are lent, so that they
// are laid out once for all keys.
pub fn fill_from(
    text: &[u8],
    encoding: Encoding,
    from: KeyPlace,
    values: &LetterValues,
    keys: &mut [i32],
) -> KeyRow
    ensures { RowTold encoding text.now from keys.old result keys.new }
{
    let mut n = 0;
    let mut here = from;
    loop {
        let run = quick_run(text, encoding, here, values, n, keys);
        n = run.count;
        here = run.next;
        if keys.len() <= n {
            return KeyRow {
                count: n,
                next: here,
                spare: 0,
            };
        }
        match key_next(text, encoding, here, values) {
            NextKey::Key(key, next) => {
                keys[n] = key;
                n += 1;
                here = next;
            }
            NextKey::End(spare) => {
                return KeyRow {
                    count: n,
                    next: here,
                    spare,
                };
            }
        }
    }
}
