// The reader of elements: which texts are documents, and where each element ends.
#![tactic(auto)]

ghost use Rattle.steps.specs.WellFormed.{WellFormed};

use self::elements::whole_end;
use self::prolog::{asides_end, root_start};

// What stands between the tags.
pub mod pieces;
// Start tags and end tags.
pub mod tags;
// Elements and their contents, which call each other.
pub mod elements;
// A DOCTYPE.
pub mod doctype;
// What stands before the root and behind it.
pub mod prolog;

// Whether some document is written by the text.
pub fn well_formed(text: &[u8]) -> bool
    ensures { WellFormed text.now result }
{
    let Some(i) = root_start(text) else {
        return false;
    };
    let Some(j) = whole_end(text, i) else {
        return false;
    };
    asides_end(text, j) == Some(text.len())
}
