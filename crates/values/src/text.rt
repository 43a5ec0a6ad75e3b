// The text of an element: whether it is numbers of its form.
ghost use Rattle.std.specs.Prelude.{◌≡◌};
ghost use Rattle.grammar.specs.Look.{text_of};
ghost use Rattle.nodes.specs.Places.{the};
ghost use Rattle.nodes.specs.Texts.{text_of_lem};
ghost use Rattle.schema.specs.Parts.{keys_by_form, text_numbered, text_fault};
ghost use Rattle.schema.specs.Asked.{Known};

use lookup::table;

// The text lists keys of a form: as numbers, or as Base64.
#[tactic(auto, using(schema::proofs::Laws::Values::keying))]
fn keys_by(text: &[u8], at: usize, form: usize) -> bool
    ensures { result ≡ keys_by_form form (text_of_lem text.now at) }
{
    match form {
        3 => keys::are_keys(text, at),
        4 => base64_reader::are_coded(text, at),
        _ => true,
    }
}

// The text is numbers of its form.
fn text_right(text: &[u8], at: usize, table: &[u32], form: usize) -> bool
    requires { Known text.now at form }
    ensures { result ≡ text_numbered table.now form (text_of (the text.now at)) }
{
    if form == 0 {
        return true;
    }
    match table::form_cell(table, form - 1, 0) {
        1 => forms::are_sixteen(text, at),
        2 => forms::are_wholes(text, at, table::form_cell(table, form - 1, 1) as u64),
        what => keys_by(text, at, what),
    }
}

// The fault of the numbers in the text of the element at `at`; that other text is blank, the walk sees.
pub(crate) fn text_fault(text: &[u8], at: usize, table: &[u32], form: usize) -> u8
    requires { Known text.now at form }
    ensures { result ≡ text_fault table.now form (text_of (the text.now at)) }
{
    if text_right(text, at, table, form) {
        0
    } else {
        7
    }
}
