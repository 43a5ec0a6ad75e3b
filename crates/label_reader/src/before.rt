// Conditions 1 to 9, 24 and 25, which the keys and the names of labels both ask before 18.
ghost use Rattle.std.specs.Prelude.{◌≡◌};
ghost use Rattle.label_reader.specs.Before.{number_before};

use labels::{key_twice, labels_twice};
use survey::surveyed;

pub(crate) fn number_before(text: &[u8], lengths: &[u64]) -> u64
    ensures { result ≡ number_before text.now lengths.now }
{
    let s = surveyed(text, lengths);
    let n = s.number;
    let maps = s.maps;
    if n != 0 {
        return n;
    }
    if key_twice(text, maps) {
        return 24;
    }
    if labels_twice(text, maps) {
        return 25;
    }
    0
}
