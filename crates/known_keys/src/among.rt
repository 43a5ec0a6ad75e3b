// How many of a row of keys stand in a part of the table.
ghost use Rattle.std.specs.Prelude.{◌≡◌, true};
ghost use Rattle.known_keys.specs.Order.{in_order};
ghost use Rattle.known_keys.specs.Known.{KnownAmong};
ghost use Rattle.known_keys.specs.Sieve.{Sifting};

use super::search::place_in;
use super::sieve::{passes, sieve};
use label_table::codes::code_of;

// Each key is searched by halves, the place last found being asked first, where it passes the sieve.
fn known_sifted(keys: &[i32], codes: &[u32], words: &[u64]) -> usize
    requires { Sifting codes.now words.now }
    ensures { KnownAmong keys.now codes.now result }
{
    let mut known = 0;
    let mut last = 0;
    for key in keys {
        let code = code_of(*key);
        if passes(words, code) {
            let at = place_in(codes, last, code);
            if at < codes.len() {
                known += 1;
                last = at;
            }
        }
    }
    known
}

// With a sieve of its own.
fn known_by_sieve(keys: &[i32], codes: &[u32]) -> usize
    requires { in_order codes.now ≡ true }
    ensures { KnownAmong keys.now codes.now result }
{
    let mut words = [0u64; 8192];
    sieve(codes, &mut words[..]);
    known_sifted(keys, codes, &words[..])
}

// A sieve pays where the part is long, and the row is not much shorter.
pub fn known_among(keys: &[i32], codes: &[u32]) -> usize
    requires { in_order codes.now ≡ true }
    ensures { KnownAmong keys.now codes.now result }
{
    let none = [0u64; 1];
    if codes.len() < 1024 {
        return known_sifted(keys, codes, &none[..0]);
    }
    if keys.len() < codes.len() / 4 {
        return known_sifted(keys, codes, &none[..0]);
    }
    known_by_sieve(keys, codes)
}
