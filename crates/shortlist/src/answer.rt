// A model of the list, and what is answered.
ghost use Rattle.std.specs.Prelude.{◌≡◌};
ghost use Rattle.shortlist.specs.Faults.{list_fault_number, search_fault_number};

use records::Index;

// A range of indices whose records are of one type and structure.
#[derive(Clone, Copy)]
pub struct Model {
    pub first: Index,
    pub count: u64,
    pub voxels: bool,
    pub structure: u64,
}

// The type (voxels or not) and the structure at an index.
#[derive(Clone, Copy)]
pub struct Told {
    pub voxels: bool,
    pub structure: u64,
}

// Why no list is made of records.
#[derive(Clone, Copy, Debug, PartialEq, Eq)]
pub enum ListFault {
    BadCount,
    BadRecord,
    Parted,
    TooShort,
}

impl ListFault {
    pub fn number(self) -> u64
        ensures { result ≡ list_fault_number self }
    {
        match self {
            ListFault::BadCount => 15,
            ListFault::BadRecord => 16,
            ListFault::Parted => 26,
            ListFault::TooShort => 17,
        }
    }
}

// Why a list does not answer.
#[derive(Clone, Copy, Debug, PartialEq, Eq)]
pub enum SearchFault {
    BadList,
    NotFound,
}

impl SearchFault {
    pub fn number(self) -> u64
        ensures { result ≡ search_fault_number self }
    {
        match self {
            SearchFault::BadList => 26,
            SearchFault::NotFound => 19,
        }
    }
}
