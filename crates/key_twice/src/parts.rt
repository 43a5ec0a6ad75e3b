// A part of the keys of a table, in their order, and the Labels behind it.
ghost use Rattle.std.specs.Prelude.{◌≡◌, true, eqb};
ghost use Rattle.lists.specs.Lists.{two_of};
ghost use Rattle.label_table.specs.Walks.{to_come};
ghost use Rattle.known_keys.specs.Order.{in_order};
ghost use Rattle.known_keys.specs.Sieve.{Sifting};
ghost use Rattle.key_twice.specs.Parts.{some_in, part_twice};

use known_keys::place_in;
use known_keys::sieve::{passes, sieve};
use label_table::codes::code_at;
use label_table::labels::next_label;

// Two numbers are equal. Those in order are so next to each other.
fn neighbours_alike(keys: &[u32]) -> bool
    requires { in_order keys.now ≡ true }
    ensures { result ≡ two_of eqb keys.now }
{
    if keys.len() == 0 {
        return false;
    }
    let mut last = keys[0];
    for i in 1..keys.len() {
        let x = keys[i];
        if x == last {
            return true;
        }
        last = x;
    }
    false
}

// A key from a Label on is one of the numbers. Most that are none are told by the sieve.
fn one_sifted(text: &[u8], from: Option<usize>, keys: &[u32], words: &[u64]) -> bool
    requires { Sifting keys.now words.now }
    ensures { result ≡ some_in keys.now (to_come text.now from) }
{
    let mut kid = from;
    loop {
        match kid {
            Some(k) => {
                let code = code_at(text, k);
                kid = next_label(text, k);
                if passes(words, code) {
                    if place_in(keys, keys.len(), code) < keys.len() {
                        return true;
                    }
                }
            }
            None => {
                return false;
            }
        }
    }
}

// With a sieve of its own.
fn one_by_sieve(text: &[u8], from: Option<usize>, keys: &[u32]) -> bool
    requires { in_order keys.now ≡ true }
    ensures { result ≡ some_in keys.now (to_come text.now from) }
{
    let mut words = [0u64; 8192];
    sieve(keys, &mut words[..]);
    one_sifted(text, from, keys, &words[..])
}

// The same; no sieve is made where no Label is left.
fn one_of_later(text: &[u8], from: Option<usize>, keys: &[u32]) -> bool
    requires { in_order keys.now ≡ true }
    ensures { result ≡ some_in keys.now (to_come text.now from) }
{
    match from {
        Some(_) => one_by_sieve(text, from, keys),
        None => false,
    }
}

// A key of the part stands in it twice, or once more from the Label on.
pub(crate) fn part_twice(text: &[u8], next: Option<usize>, part: &[u32]) -> bool
    requires { in_order part.now ≡ true }
    ensures { result ≡ part_twice part.now (to_come text.now next) }
{
    if neighbours_alike(part) {
        return true;
    }
    one_of_later(text, next, part)
}
