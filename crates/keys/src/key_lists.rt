// Keys in a row: the next key of a text, and whether a text lists keys.
ghost use Rattle.std.specs.Prelude.{◌≡◌};
ghost use Rattle.nodes.specs.Texts.{says_at, left, text_of_lem};
ghost use Rattle.numbers.specs.Numbers.{words, key_list};
ghost use Rattle.keys.specs.KeyLists.{SignRead, spelled, KeyRead, ListedKeyTold};

use super::key_limit;
use number_lists::chars::{blanks, digits, letter, word_ends};
use number_lists::quick_number;
use number_values::signed;
use numbers::Source;

// The key that stands next in a list, and the place behind it. Three cases by name: of two Options one `None` would be the end.
#[derive(Clone, Copy)]
pub enum ListedKey {
    Key(i32, usize),
    End,
    Bad,
}

// The key whose digits begin at `at`, its sign being read.
fn key_from(text: &[u8], at: usize, negative: bool) -> ListedKey
    requires { SignRead text.now at negative }
    ensures { KeyRead text.now (words (spelled negative (says_at text.now at)))
        (left text.now at) result }
{
    let run = digits(text, at, Source::Contents, 10, 0);
    if run.count == 0 {
        return ListedKey::Bad;
    }
    if !word_ends(text, run.next, Source::Contents) {
        return ListedKey::Bad;
    }
    if key_limit(negative) < run.value {
        return ListedKey::Bad;
    }
    ListedKey::Key(signed(negative, run.value) as i32, run.next)
}

// The next key, whatever stands before it or in it.
fn any_key(text: &[u8], at: usize) -> ListedKey
    ensures { ListedKeyTold text.now at result }
{
    let i = blanks(text, at);
    match letter(text, i) {
        Some((b, j)) => {
            if b == b'-' {
                return key_from(text, j, true);
            }
            key_from(text, i, false)
        }
        None => ListedKey::End,
    }
}

// The next key of the list in a text, from `at` on: where plain bytes write it, most keys, it is read as a plain number.
pub fn next_key(text: &[u8], at: usize) -> ListedKey
    ensures { ListedKeyTold text.now at result }
{
    let quick = quick_number(text, at);
    if quick == 0 {
        return any_key(text, at);
    }
    ListedKey::Key((quick / 16) as i32, at + (quick % 16) as usize)
}

// The contents from `at` on list keys.
fn keys_from(text: &[u8], at: usize) -> bool
    ensures { result ≡ key_list (says_at text.now at) }
{
    let mut i = at;
    loop {
        match next_key(text, i) {
            ListedKey::Key(_, j) => {
                i = j;
            }
            ListedKey::End => {
                return true;
            }
            ListedKey::Bad => {
                return false;
            }
        }
    }
}

// The text of the element at `at` lists keys.
pub fn are_keys(text: &[u8], at: usize) -> bool
    ensures { result ≡ key_list (text_of_lem text.now at) }
{
    match inside::texts::text_start(text, at) {
        Some(i) => keys_from(text, i),
        None => true,
    }
}
