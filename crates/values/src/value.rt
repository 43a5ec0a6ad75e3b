// The value of an attribute: whether it is a word, or numbers, of its form.
ghost use Rattle.std.specs.Prelude.{◌≡◌, ◌<◌};
ghost use Rattle.schema.specs.Schema.{is_word, is_number};
ghost use Rattle.nodes.specs.Values.{value_there};
ghost use Rattle.schema.specs.Table.{form_at};
ghost use Rattle.schema.specs.Parts.{value_fault, number_by, label_by_form};

use lookup::{table, words};

// The value is one of the named words, where its form is one of words.
fn word_right(text: &[u8], v: usize, table: &[u32], letters: &[u8], form: usize) -> bool
    requires { form < 4294967296 }
    ensures { result ≡ is_word (form_at table.now letters.now form) (value_there text.now v) }
{
    if table::form_cell(table, form, 0) != 1 {
        return true;
    }
    let from = table::form_cell(table, form, 1);
    let to = table::form_cell(table, form, 2);
    let front = table::form_cell(table, form, 3);
    words::word_place(text, v, table, letters, front, from, to) < to
}

// The value is a number of a label, of a form.
#[tactic(auto, using(schema::proofs::Laws::Values::labelling))]
fn label_by(text: &[u8], v: usize, form: usize) -> bool
    ensures { result ≡ label_by_form form (value_there text.now v) }
{
    match form {
        7 => keys::is_key(text, v),
        8 => keys::is_colour(text, v),
        _ => true,
    }
}

// The value is a number or numbers of a form with these limits.
fn number_by(text: &[u8], v: usize, form: usize, a: usize, b: usize, c: usize) -> bool
    ensures { result ≡ number_by form a b c (value_there text.now v) }
{
    match form {
        2 => forms::is_dimension_list(text, v),
        3 => forms::is_whole(text, v, a as u64, b as u64),
        4 => forms::is_decimal(text, v),
        5 => forms::is_exponent(text, v, a as u64),
        6 => forms::are_lengths(text, v, a as u64, b as u64, c as u64),
        _ => label_by(text, v, form),
    }
}

// The value is a number or numbers of its form; those of labels have no limits.
fn number_right(text: &[u8], v: usize, table: &[u32], letters: &[u8], form: usize) -> bool
    requires { form < 4294967296 }
    ensures { result ≡ is_number (form_at table.now letters.now form) (value_there text.now v) }
{
    let f = table::form_cell(table, form, 0);
    if 6 < f {
        return label_by(text, v, f);
    }
    let a = table::form_cell(table, form, 1);
    let b = table::form_cell(table, form, 2);
    let c = table::form_cell(table, form, 3);
    number_by(text, v, f, a, b, c)
}

// The fault of a value.
pub(crate) fn value_fault(text: &[u8], v: usize, table: &[u32], letters: &[u8], form: usize) -> u8
    requires { form < 4294967296 }
    ensures { result ≡ value_fault table.now letters.now form (value_there text.now v) }
{
    if !word_right(text, v, table, letters, form) {
        return 6;
    }
    if !number_right(text, v, table, letters, form) {
        return 7;
    }
    0
}
