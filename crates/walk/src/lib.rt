// The walk over a document by a lent table: whether it is as the rows say that the table stands for. Any table will do.
#![tactic(auto)]

ghost use Rattle.schema.specs.Checked.{Checks, ChecksRoot, DocumentKnown};
ghost use Rattle.std.specs.Prelude.{◌<◌};

use elements::children::root_of;
use markup::well_formed;

// How often the lines of its children are met.
mod tally;
// The element and all that is in it.
mod element;

pub use schema::Checked;

#[tactic(auto, using(schema::proofs::Laws::Checked::rooted))]
fn of_document(text: &[u8], table: &[u32], letters: &[u8], kind: usize) -> Checked
    requires { DocumentKnown text.now kind }
    ensures { ChecksRoot table.now letters.now kind text.now result }
{
    match root_of(text) {
        Some(root) => Checked {
            number: element::fault(text, root, table, letters, kind).fault,
            root,
        },
        None => Checked { number: 3, root: 0 },
    }
}

// Whether the text is a document whose root, as of this kind, is as the table says.
pub fn check(text: &[u8], table: &[u32], letters: &[u8], kind: u32) -> Checked
    ensures { Checks table.now letters.now kind text.now result }
{
    let k = lookup::table::wide(kind);
    if well_formed(text) {
        return of_document(text, table, letters, k);
    }
    Checked { number: 3, root: 0 }
}
