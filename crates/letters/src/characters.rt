// Characters, and references to them. By tests and places, and not by `get` and `match`: texts in UTF-8 take a sixth longer with those.
ghost use Rattle.std.specs.Prelude.{◌≡◌, length, drop};
ghost use Rattle.grammar.specs.Parser.{two, three, four, rest_by, reference_at};
ghost use Rattle.steps.specs.Step.{stepped};
ghost use Rattle.steps.specs.Leaves.{character_at, referred};

use super::blanks::mark_end;
use super::classes::{
    is_continuing, is_lead1, is_lead2, is_lead3, is_lead4, is_noncharacter, is_plain,
};

// The byte behind `a`, of two.
fn second_of_two(text: &[u8], at: usize, a: u8) -> Option<usize>
    ensures { result ≡ stepped (length text.now) (rest_by two a (drop at text.now)) }
{
    if !is_lead2(a) {
        return None;
    }
    if text.len() <= at {
        return None;
    }
    if !is_continuing(text[at]) {
        return None;
    }
    Some(at + 1)
}

// The bytes behind `a`, of three.
fn rest_of_three(text: &[u8], at: usize, a: u8) -> Option<usize>
    ensures { result ≡ stepped (length text.now) (rest_by three a (drop at text.now)) }
{
    if text.len() <= at {
        return None;
    }
    let b = text[at];
    if !is_lead3(a, b) {
        return None;
    }
    if text.len() <= at + 1 {
        return None;
    }
    let c = text[at + 1];
    if !is_continuing(c) {
        return None;
    }
    if is_noncharacter(a, b, c) {
        return None;
    }
    Some(at + 2)
}

// The bytes behind `a`, of four.
fn rest_of_four(text: &[u8], at: usize, a: u8) -> Option<usize>
    ensures { result ≡ stepped (length text.now) (rest_by four a (drop at text.now)) }
{
    if text.len() <= at {
        return None;
    }
    if !is_lead4(a, text[at]) {
        return None;
    }
    if text.len() <= at + 1 {
        return None;
    }
    if !is_continuing(text[at + 1]) {
        return None;
    }
    if text.len() <= at + 2 {
        return None;
    }
    if !is_continuing(text[at + 2]) {
        return None;
    }
    Some(at + 3)
}

// A legal character, of one to four bytes.
pub fn wide_character_end(text: &[u8], at: usize) -> Option<usize>
    ensures { result ≡ stepped (length text.now) (character_at (drop at text.now)) }
{
    if text.len() <= at {
        return None;
    }
    let a = text[at];
    if a <= 127 {
        if is_lead1(a) {
            return Some(at + 1);
        }
        return None;
    }
    if a <= 223 {
        return second_of_two(text, at + 1, a);
    }
    if a <= 239 {
        return rest_of_three(text, at + 1, a);
    }
    rest_of_four(text, at + 1, a)
}

// The same, quick where the character is plain.
pub fn character_end(text: &[u8], at: usize) -> Option<usize>
    ensures { result ≡ stepped (length text.now) (character_at (drop at text.now)) }
{
    if text.len() <= at {
        return None;
    }
    if is_plain(text[at]) {
        return Some(at + 1);
    }
    wide_character_end(text, at)
}

pub fn reference_at(text: &[u8], at: usize) -> Option<(u8, usize)>
    ensures { result ≡ referred (length text.now) (reference_at (drop at text.now)) }
{
    let amp = mark_end(text, at, b"&amp;");
    if let Some(j) = amp {
        return Some((b'&', j));
    }
    let lt = mark_end(text, at, b"&lt;");
    if let Some(j) = lt {
        return Some((b'<', j));
    }
    let gt = mark_end(text, at, b"&gt;");
    if let Some(j) = gt {
        return Some((b'>', j));
    }
    let quot = mark_end(text, at, b"&quot;");
    if let Some(j) = quot {
        return Some((b'"', j));
    }
    let apos = mark_end(text, at, b"&apos;");
    if let Some(j) = apos {
        return Some((b'\'', j));
    }
    None
}

pub fn reference_end(text: &[u8], at: usize) -> Option<usize>
    ensures { result ≡ stepped (length text.now) (reference_at (drop at text.now)) }
{
    match reference_at(text, at) {
        Some((_, j)) => Some(j),
        None => None,
    }
}
