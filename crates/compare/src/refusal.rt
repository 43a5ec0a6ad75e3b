// Why two sheets are not compared.
ghost use Rattle.std.specs.Prelude.{◌≡◌, true, eqb, length, MatchResult};
ghost use Rattle.lists.specs.Lists.{two_of};
ghost use Rattle.comparison.specs.Compare.{well_formed, records_of, compare_refusal};
ghost use Rattle.comparison.specs.Accepted.{sheet_refusal};
ghost use Rattle.compare.specs.Refused.{number_of, SheetFits, Begun};

use super::width::width;
use matching::Sheet;
use repeats::repeats_in;
use sheets::unpack;

#[derive(Clone, Copy)]
pub(crate) enum Refusal {
    NoSheet,
    BadRecord,
    NoRoom,
    Repeated,
}

impl Refusal {
    // The paper's number.
    pub(crate) fn number(self) -> u64
        ensures { result ≡ number_of self }
    {
        match self {
            Refusal::NoSheet => 15,
            Refusal::BadRecord => 16,
            Refusal::NoRoom => 13,
            Refusal::Repeated => 14,
        }
    }
}

// The sheet, no longer judged.
fn opened(bytes: &[u8]) -> Sheet
    requires { well_formed bytes.now ≡ true }
    ensures { result.bytes.now ≡ bytes.now }
{
    Sheet {
        bytes,
        count: (bytes.len() - 4) / width(bytes),
    }
}

// The sheet, unless 15 or 16 applies to it.
fn judged<'a>(bytes: &'a [u8], work: &mut [u64]) -> Result<Sheet<'a>, Refusal>
    ensures { MatchResult result
        (λ s. (s.bytes.now ≡ bytes.now) × (sheet_refusal bytes.now ≡ 0))
        (λ e. number_of e ≡ sheet_refusal bytes.now) }
{
    match unpack(bytes, work).number {
        15 => Err(Refusal::NoSheet),
        16 => Err(Refusal::BadRecord),
        _ => Ok(opened(bytes)),
    }
}

// The sheet has a location twice.
pub(crate) fn location_twice(sheet: Sheet, work: &mut [u64]) -> bool
    requires { SheetFits sheet.bytes.now (length work.old) }
    ensures { result ≡ two_of eqb (records_of sheet.entry.bytes.now) }
{
    unpack(sheet.bytes, work);
    repeats_in(work, sheet.count) == 14
}

// Both sheets, unless they are refused, but for a location twice in the second.
pub(crate) fn begun<'a>(
    first: &'a [u8],
    second: &'a [u8],
    work: &mut [u64],
) -> Result<(Sheet<'a>, Sheet<'a>), Refusal>
    ensures { MatchResult result
        (λ p. (p.0.bytes.now ≡ first.now) × (p.1.bytes.now ≡ second.now) × Begun first.now second.now (length work.old))
        (λ e. number_of e ≡ compare_refusal first.now second.now (length work.old)) }
{
    let one = judged(first, work)?;
    let two = judged(second, work)?;
    if work.len() < one.count + two.count {
        return Err(Refusal::NoRoom);
    }
    if location_twice(one, work) {
        Err(Refusal::Repeated)
    } else {
        Ok((one, two))
    }
}

// Both sheets, unless they are refused.
pub(crate) fn accepted<'a>(
    first: &'a [u8],
    second: &'a [u8],
    work: &mut [u64],
) -> Result<(Sheet<'a>, Sheet<'a>), Refusal>
    ensures { MatchResult result
        (λ p. (p.0.bytes.now ≡ first.now) × (p.1.bytes.now ≡ second.now) × (compare_refusal first.now second.now (length work.old) ≡ 0))
        (λ e. number_of e ≡ compare_refusal first.now second.now (length work.old)) }
{
    let (one, two) = begun(first, second, work)?;
    if location_twice(two, work) {
        Err(Refusal::Repeated)
    } else {
        Ok((one, two))
    }
}
