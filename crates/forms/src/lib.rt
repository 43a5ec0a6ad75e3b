// Whether a value, or the text of an element, is a number or numbers of a form.
#![tactic(auto)]

ghost use Rattle.std.specs.Prelude.{◌≡◌};
ghost use Rattle.nodes.specs.Texts.{text_of_lem, says_at};
ghost use Rattle.nodes.specs.Values.{value_there};
ghost use Rattle.forms.specs.Passed.{NumbersPassed};
ghost use Rattle.numbers.specs.Numbers.{whole, volume_dimensions, dimension_list, exponent, decimal, wholes, sixteen};

use numbers::Next;

pub fn is_whole(text: &[u8], v: usize, least: u64, most: u64) -> bool
    ensures { result ≡ whole least most (value_there text.now v) }
{
    number_values::whole_value(text, v, least, most).is_some()
}

pub fn is_dimension_list(text: &[u8], v: usize) -> bool
    ensures { result ≡ dimension_list (value_there text.now v) }
{
    number_values::dimension_list(text, v).is_some()
}

pub fn is_exponent(text: &[u8], v: usize, most: u64) -> bool
    ensures { result ≡ exponent most (value_there text.now v) }
{
    number_values::exponent_value(text, v, most).is_some()
}

pub fn is_decimal(text: &[u8], v: usize) -> bool
    ensures { result ≡ decimal (value_there text.now v) }
{
    number_values::decimal_value(text, v).is_some()
}

pub fn are_lengths(text: &[u8], v: usize, width: u64, depth: u64, height: u64) -> bool
    ensures { result ≡ volume_dimensions width depth height (value_there text.now v) }
{
    number_values::three_lengths(text, v, width, depth, height).is_some()
}

// The place behind the plain numbers up to `most` that are next.
fn plain_wholes(text: &[u8], at: usize, most: u64) -> usize
    ensures { NumbersPassed text.now at most result }
{
    let mut i = at;
    loop {
        let quick = number_lists::quick_number(text, i);
        if quick == 0 || most < quick / 16 {
            return i;
        }
        i += (quick % 16) as usize;
    }
}

// The contents from `at` on list whole numbers up to `most`.
fn wholes_from(text: &[u8], at: usize, most: u64) -> bool
    ensures { result ≡ wholes most (says_at text.now at) }
{
    let mut i = at;
    loop {
        let from = plain_wholes(text, i, most);
        match number_lists::any_number(text, from) {
            Next::Number(n, j) => {
                i = j;
                if most < n {
                    return false;
                }
            }
            Next::End => {
                return true;
            }
            Next::Bad => {
                return false;
            }
        }
    }
}

// The text of the element at `at` lists whole numbers up to `most`.
pub fn are_wholes(text: &[u8], at: usize, most: u64) -> bool
    ensures { result ≡ wholes most (text_of_lem text.now at) }
{
    match inside::texts::text_start(text, at) {
        Some(i) => wholes_from(text, i, most),
        None => true,
    }
}

// The text of the element at `at` is a transformation.
pub fn are_sixteen(text: &[u8], at: usize) -> bool
    ensures { result ≡ sixteen (text_of_lem text.now at) }
{
    match inside::texts::text_start(text, at) {
        Some(i) => number_values::sixteen_ok(text, i),
        None => false,
    }
}
