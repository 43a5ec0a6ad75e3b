// How many locations are the same, moved, in the first only and in the second only.
ghost use Rattle.std.specs.Prelude.{◌≡◌, not, ◌&&◌, eqb, length, MatchResult};
ghost use Rattle.lists.specs.Lists.{two_of};
ghost use Rattle.comparison.specs.Compare.{records_of, compare_refusal, compared};
ghost use Rattle.compare.specs.Refused.{number_of, SheetFits};

use super::refusal::{Refusal, begun, location_twice};
use comparison::Compared;
use matching::{Sheet, both_in, same_in};

// Where as many records of the first sheet are in the second as the second has, that one need not be looked through.
fn twice_beyond(second: Sheet, both: usize, work: &mut [u64]) -> bool
    requires { SheetFits second.bytes.now (length work.old) }
    ensures { result ≡ (not (eqb both second.entry.count) && two_of eqb (records_of second.entry.bytes.now)) }
{
    both != second.count && location_twice(second, work)
}

// The four counts, unless the sheets are refused.
pub(crate) fn counted(first: &[u8], second: &[u8], work: &mut [u64]) -> Result<Compared, Refusal>
    ensures { MatchResult result
        (λ c. c ≡ compared (compare_refusal first.now second.now (length work.old)) (records_of first.now) (records_of second.now))
        (λ e. number_of e ≡ compare_refusal first.now second.now (length work.old)) }
{
    let (one, two) = begun(first, second, work)?;
    let both = both_in(one, two, work);
    if twice_beyond(two, both, work) {
        return Err(Refusal::Repeated);
    }
    let same = same_in(one, two);
    Ok(Compared {
        number: 0,
        same,
        moved: both - same,
        first: one.count - both,
        second: two.count - both,
    })
}
