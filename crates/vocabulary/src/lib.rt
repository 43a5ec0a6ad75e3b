// The table of rows, lent to the walk: conditions 3, 6 and 7 of any text, as CIFTI or as GIFTI, and the numbers of the words that the
// paper names.
#![tactic(auto)]

ghost use Rattle.std.specs.Prelude.{◌≡◌};
ghost use Rattle.nodes.specs.Values.{value_there};
ghost use Rattle.cifti.specs.Words.{structures, units, number_in};
ghost use Rattle.cifti.specs.Maps.{words_of_kinds};
ghost use Rattle.schema.specs.Table.{words_at};
ghost use Rattle.numbered_rows.specs.Table.{table, letters};
ghost use Rattle.numbered_rows.specs.Checks.{ChecksCifti, ChecksGifti, TableAnswers};

use lookup::words::word_number;
use schema::Checked;

// The numbers and letters.
mod table;

// An answer: conditions 3, 6 and 7, or a number among words. Only what was asked for is promised.
#[derive(Drop)]
struct Answer {
    checked: Checked,
    number: u64,
}

// Conditions 3, 6 and 7 of the text, whose root is of a kind, where they are asked for; else the place of the value at `v` among the
// words of a form of the table, or their number. All are asked here, so that the table is laid out in one place of the compiled library.
fn asked(text: &[u8], conditions: bool, kind: u32, v: usize, form: u32) -> Answer
    ensures { TableAnswers text.now conditions kind v form result.checked result.number }
{
    let table = table::numbers();
    let letters = table::letters();
    if conditions {
        return Answer {
            checked: walk::check(text, &table, &letters, kind),
            number: 0,
        };
    }
    Answer {
        checked: Checked { number: 3, root: 0 },
        number: word_number(text, v, &table, &letters, form),
    }
}

// Conditions 3, 6 and 7, as CIFTI.
pub fn checked(text: &[u8]) -> Checked
    ensures { ChecksCifti text.now result }
{
    asked(text, true, 0, 0, 0).checked
}

// Conditions 3, 6 and 7, as GIFTI.
pub fn gifti_checked(text: &[u8]) -> Checked
    ensures { ChecksGifti text.now result }
{
    asked(text, true, 19, 0, 0).checked
}

// The place of the value at `v` among the words of a form of the table, or their number.
fn named(text: &[u8], v: usize, form: u32) -> u64
    ensures { result ≡ number_in (words_at table letters form) (value_there text.now v) }
{
    asked(text, false, 0, v, form).number
}

// The structure that the value at `v` names; 32 where it names none.
pub fn structure_named(text: &[u8], v: usize) -> u64
    ensures { result ≡ number_in structures (value_there text.now v) }
{
    named(text, v, 8)
}

// The unit that the value at `v` names; 4 where it names none.
pub fn unit_named(text: &[u8], v: usize) -> u64
    ensures { result ≡ number_in units (value_there text.now v) }
{
    named(text, v, 7)
}

// The place of the value at `v` among the words of the kinds of maps; their number where it is none of them.
pub fn kind_named(text: &[u8], v: usize) -> u64
    ensures { result ≡ number_in words_of_kinds (value_there text.now v) }
{
    named(text, v, 12)
}
