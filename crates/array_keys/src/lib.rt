// The keys of an array, one after another or many at a time, in whatever encoding they are written.
#![tactic(auto)]

// The key of four bytes.
mod fours;
// Keys of four bytes in Base64.
mod coded;
// Keys many at a time, into a lent slice.
mod rows;

ghost use Rattle.std.specs.Prelude.{◌≡◌};
ghost use Rattle.array_keys.specs.Ahead.{keys_start, KeyTold};
ghost use Rattle.array_keys.specs.declared.Encoding.TheVariants as encodings;

pub use base64_reader::{LetterValues, letter_values};
use coded::coded_next;
pub use fours::key_of;
use keys::ListedKey;
pub use rows::{KeyRow, fill_from};

// Keys as words parted by blanks; or in Base64, four bytes a key, the greatest first or the least.
#[derive(Clone, Copy)]
pub enum Encoding {
    Plain,
    Big,
    Little,
}

// A place among the keys: a place of the text, and the bytes that are read and not yet given, as one number.
#[derive(Clone, Copy)]
pub struct KeyPlace {
    pub at: usize,
    pub held: u64,
    pub bytes: usize,
}

// The next key, and the place behind it; or how many bytes are left over at the end, which is no fault: neither Option nor Result says it.
#[derive(Clone, Copy)]
pub enum NextKey {
    Key(i32, KeyPlace),
    End(usize),
}

pub fn place(at: usize, held: u64, bytes: usize) -> KeyPlace
    ensures { result ≡ record { at = at; held = held; bytes = bytes } }
{
    KeyPlace { at, held, bytes }
}

// Where the keys of the element at `at` begin.
pub fn keys_start(text: &[u8], at: usize) -> KeyPlace
    ensures { result ≡ keys_start text.now at }
{
    match inside::texts::text_start(text, at) {
        Some(i) => place(i, 0, 0),
        None => place(text.len(), 0, 0),
    }
}

// The next key of a list of words.
fn plain_next(text: &[u8], from: KeyPlace) -> NextKey
    ensures { KeyTold encodings.Plain text.now from result }
{
    match keys::next_key(text, from.at) {
        ListedKey::Key(k, j) => NextKey::Key(k, place(j, 0, 0)),
        ListedKey::End => NextKey::End(0),
        ListedKey::Bad => NextKey::End(0),
    }
}

// The next key from a place on. The values of letters are lent, so that they are laid out once for all keys.
pub fn key_next(text: &[u8], encoding: Encoding, from: KeyPlace, values: &LetterValues) -> NextKey
    ensures { KeyTold encoding text.now from result }
{
    match encoding {
        Encoding::Plain => plain_next(text, from),
        Encoding::Big => coded_next(text, from, values, false),
        Encoding::Little => coded_next(text, from, values, true),
    }
}
