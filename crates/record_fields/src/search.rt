// The first place of a number in the records.
ghost use Rattle.records.specs.Find.{Finds};

use records::{Place, RecordFound};

pub fn find(records: &[u64], number: u64) -> RecordFound
    ensures { Finds records.now number result }
{
    for i in 0..records.len() {
        if records[i] == number {
            return RecordFound {
                number: 0,
                place: Place(i),
            };
        }
    }
    RecordFound {
        number: 19,
        place: Place(0),
    }
}
