// The keys of all arrays against the table of labels.
ghost use Rattle.nodes.specs.Places.{the};
ghost use Rattle.label_table.specs.Codes.{codes_at};
ghost use Rattle.gifti_arrays.specs.Ready.{TableHere};
ghost use Rattle.gifti_arrays.specs.Arrays.{ArraysTold, Room};

use super::arrays::{Told, arrays_told};
use known_keys::taken;
use label_table::labels::first_label;

// As many keys of the table at a time as there is room for. A key stands in one turn at most, so that those found add up.
fn search_in(text: &[u8], root: usize, table: usize, work: &mut [u32]) -> Told
    requires { (TableHere text.now root table) × (Room work.old) }
    ensures { ArraysTold (the text.now root) (codes_at text.now table) result }
{
    let mut known = 0;
    let mut kid = first_label(text, table);
    loop {
        let turn = taken(text, kid, work);
        let n = turn.n;
        let told = arrays_told(text, root, &work[..n]);
        known += told.known;
        kid = turn.next;
        match kid {
            Some(_) => {}
            None => {
                return Told {
                    arrays: told.arrays,
                    fit: told.fit,
                    keys: told.keys,
                    known,
                };
            }
        }
    }
}

// The same, with room for 32,768 keys.
pub fn searched(text: &[u8], root: usize, table: usize) -> Told
    requires { TableHere text.now root table }
    ensures { ArraysTold (the text.now root) (codes_at text.now table) result }
{
    let mut work = [0u32; 32768];
    search_in(text, root, table, &mut work[..])
}
