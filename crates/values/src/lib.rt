// An element's own part, by a lent table: the faults of its attributes and of the numbers in its text.
#![tactic(auto)]

ghost use Rattle.schema.specs.Asked.{Known};
ghost use Rattle.schema.specs.Walked.{Owns};

use attributes::{attributes_fault, listed_from};
use faults::sooner;
use lookup::table;
use text::text_fault;

// The smaller of two faults.
pub mod faults;
// A word, or numbers.
mod value;
// Those that are to be there, and no others.
mod attributes;
// Numbers between tags.
mod text;

// The fault of an element's own part, and a place in its start tag: the attributes before it were passed.
#[derive(Clone, Copy)]
pub struct Own {
    pub fault: u8,
    pub place: usize,
}

// The fault of the element's own part: its attributes and the numbers in its text.
pub fn own_fault(text: &[u8], at: usize, table: &[u32], letters: &[u8], kind: usize) -> Own
    requires { Known text.now at kind }
    ensures { Owns table.now letters.now text.now at kind result.fault result.place }
{
    let walk = attributes_fault(text, at, table, letters, kind);
    if walk.fault == 6 {
        return Own {
            fault: 6,
            place: walk.at,
        };
    }
    let from = table::kind_cell(table, kind, 0);
    let to = table::kind_cell(table, kind, 1);
    let listed = listed_from(text, walk.at, table, letters, from, to);
    if !listed.right {
        return Own {
            fault: 6,
            place: listed.at,
        };
    }
    let form = table::kind_cell(table, kind, 4);
    Own {
        fault: sooner(walk.fault, text_fault(text, at, table, form)),
        place: listed.at,
    }
}
