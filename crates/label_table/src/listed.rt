// The keys of the table at a place, in order; the label of a key.
ghost use Rattle.std.specs.Prelude.{◌≡◌, length};
ghost use Rattle.label_table.specs.Labels.{table_keys_at, keys_written, label_with};

use super::labels::{first_label, key_of, next_label};

// What those answer that write keys into a lent slice: the number of the refusal, or 0, and then how many keys were written.
#[derive(Clone, Copy)]
pub struct Filled {
    pub number: u64,
    pub count: usize,
}

// How many keys the table has.
pub fn key_count(text: &[u8], at: usize) -> usize
    ensures { result ≡ length (table_keys_at text.now at) }
{
    let mut n = 0;
    let mut kid = first_label(text, at);
    loop {
        match kid {
            Some(k) => {
                kid = next_label(text, k);
                n += 1;
            }
            None => {
                return n;
            }
        }
    }
}

// Writes the keys from the start of the slice, as many as it has room for.
pub fn fill_keys(text: &[u8], at: usize, keys: &mut [i32])
    ensures { keys.new ≡ keys_written (table_keys_at text.now at) keys.old }
{
    let mut kid = first_label(text, at);
    for n in 0..keys.len() {
        let Some(k) = kid else {
            return;
        };
        keys[n] = key_of(text, k);
        kid = next_label(text, k);
    }
}

// The first Label that has the key.
pub fn label_with(text: &[u8], at: usize, key: i32) -> Option<usize>
    ensures { result ≡ label_with key text.now at }
{
    let mut kid = first_label(text, at);
    loop {
        match kid {
            Some(k) => {
                kid = next_label(text, k);
                if key_of(text, k) == key {
                    return Some(k);
                }
            }
            None => {
                return None;
            }
        }
    }
}
