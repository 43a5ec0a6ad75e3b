// The kind of a record; a number of no more bits than a record has.
ghost use Rattle.std.specs.Prelude.{◌≡◌, ◌<◌, ◌≤◌};
ghost use Rattle.records.specs.Record.{record_of, location_of};
ghost use Rattle.shortlist.specs.Runs.{structure_kind, kind_of};
ghost use Rattle.shortlist.specs.Asking.{is_record};

use record_fields::{
    i_of, is_voxel, j_of, k_of, structure_of, surface_record, vertex_of, voxel_record,
};

// Type and structure as one number, which is a place among 64 flags or bits: 32 for voxels, and the structure.
#[tactic(auto, unfolding(shortlist::specs::Runs::structure_kind))]
pub(crate) fn structure_kind(voxels: bool, structure: u64) -> u64
    requires { structure ≤ 31 }
    ensures is { result ≡ structure_kind voxels structure }
    ensures small { result < 64 }
{
    if voxels { 32 + structure } else { structure }
}

// The kind of a record.
#[tactic(auto, using(shortlist::proofs::Laws::Runs::structure_small), unfolding(shortlist::specs::Runs::kind_of))]
pub(crate) fn kind_of(number: u64) -> u64
    ensures is { result ≡ kind_of number }
    ensures small { result < 64 }
{
    structure_kind(is_voxel(number), structure_of(number))
}

// The record of the location that a number's bits say.
#[tactic(auto, using(shortlist::proofs::Laws::Location::voxel_again, shortlist::proofs::Laws::Location::surface_again))]
fn made_again(number: u64) -> u64
    ensures { result ≡ record_of (location_of number) }
{
    let structure = structure_of(number);
    if is_voxel(number) {
        voxel_record(structure, i_of(number), j_of(number), k_of(number))
    } else {
        surface_record(structure, vertex_of(number))
    }
}

// A number of no more bits than a record has.
#[tactic(auto, unfolding(shortlist::specs::Asking::is_record))]
pub(crate) fn is_record(number: u64) -> bool
    ensures { result ≡ is_record number }
{
    made_again(number) == number
}
