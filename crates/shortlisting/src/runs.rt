// The runs of records, in an array, in one walk.
ghost use Rattle.std.specs.Prelude.{◌≡◌, ◌≤◌, length};
ghost use Rattle.lists.specs.Lists.{all};
ghost use Rattle.records.specs.Record.{legal_record};
ghost use Rattle.shortlist.specs.Made.{RunEnd, RunsOf, MadeOf};

use super::kinds::kind_of;
use record_fields::{is_voxel, legal, structure_of};
use records::Index;
use shortlist::{ListFault, Made, Model};

// What a place of the array holds before there is a run in it.
const NONE: Model = Model {
    first: Index(0),
    count: 0,
    voxels: false,
    structure: 0,
};

// Whether all records are legal.
fn all_legal(records: &[u64]) -> bool
    ensures { result ≡ all legal_record records.now }
{
    records.iter().all(|r| legal(*r))
}

// Where a run that goes on at `from` ends: at the first record that is not legal or of another kind, or behind the last.
fn run_end(records: &[u64], from: usize, kind: u64) -> usize
    requires { from ≤ length records.now }
    ensures { RunEnd records.now from kind result }
{
    for i in from..records.len() {
        let r = records[i];
        if !(legal(r) & (kind_of(r) == kind)) {
            return i;
        }
    }
    records.len()
}

// The runs of the records, or an illegal record, or a type and structure that comes back.
#[tactic(auto, using(shortlist::proofs::Laws::Walking::walking))]
fn runs_of(records: &[u64]) -> Result<Made, ListFault>
    ensures { RunsOf records.now result }
{
    let mut made = Made {
        count: 0,
        models: [NONE; 64],
    };
    let mut seen = [false; 64];
    let mut at = 0;
    while at < records.len() {
        let r = records[at];
        if !legal(r) {
            return Err(ListFault::BadRecord);
        }
        let kind = kind_of(r);
        let place = kind as usize;
        if seen[place] {
            if all_legal(&records[at..]) {
                return Err(ListFault::Parted);
            }
            return Err(ListFault::BadRecord);
        }
        let to = run_end(records, at + 1, kind);
        made.models[made.count] = Model {
            first: Index(at as u64),
            count: (to - at) as u64,
            voxels: is_voxel(r),
            structure: structure_of(r),
        };
        made.count += 1;
        seen[place] = true;
        at = to;
    }
    Ok(made)
}

// The runs of the records in so many places.
pub fn made_of(records: &[u64], room: usize) -> Result<Made, ListFault>
    ensures { MadeOf records.now room result }
{
    if records.len() < 1 || 1_048_576 < records.len() {
        return Err(ListFault::BadCount);
    }
    let made = runs_of(records)?;
    if room < made.count {
        return Err(ListFault::TooShort);
    }
    Ok(made)
}
