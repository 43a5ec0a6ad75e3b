// Those at the same index.
ghost use Rattle.std.specs.Prelude.{◌≡◌};
ghost use Rattle.comparison.specs.Compare.{records_of, same};

use super::sheet::Sheet;
use records::Place;

pub fn same_in(first: Sheet, second: Sheet) -> usize
    ensures { result ≡ same (records_of first.entry.bytes.now) (records_of second.entry.bytes.now) }
{
    let mut same = 0;
    let n = first.count.min(second.count);
    for i in 0..n {
        if first.record(Place(i)) == second.record(Place(i)) {
            same += 1;
        }
    }
    same
}
