// A record: 54 bits that stand for a location.
ghost use Rattle.std.specs.Prelude.{◌≡◌};
ghost use Rattle.records.specs.Record.{Location, record_of, wrapped, is_voxel, structure_of, payload_of, i_of, j_of, k_of, key_of, legal_record};

use records::Vertex;

// The record of a vertex; a part too large for its bits is taken modulo their number.
pub fn surface_record(structure: u64, vertex: Vertex) -> u64
    ensures { result ≡ record_of (wrapped (Location.on_surface structure vertex.0)) }
{
    structure % 32 * 281_474_976_710_656 + vertex.0 % 281_474_976_710_656
}

// The record of a voxel; a part too large for its bits is taken modulo their number.
pub fn voxel_record(structure: u64, i: u64, j: u64, k: u64) -> u64
    ensures { result ≡ record_of (wrapped (Location.in_volume structure i j k)) }
{
    9_007_199_254_740_992
        + structure % 32 * 281_474_976_710_656
        + i % 65_536 * 4_294_967_296
        + j % 65_536 * 65_536
        + k % 65_536
}

pub fn is_voxel(r: u64) -> bool
    ensures { result ≡ is_voxel r }
{
    r / 9_007_199_254_740_992 % 2 == 1
}

pub fn structure_of(r: u64) -> u64
    ensures { result ≡ structure_of r }
{
    r / 281_474_976_710_656 % 32
}

// A surface's vertex number.
pub fn vertex_of(r: u64) -> Vertex
    ensures { result.0 ≡ payload_of r }
{
    Vertex(r % 281_474_976_710_656)
}

pub fn i_of(r: u64) -> u64
    ensures { result ≡ i_of r }
{
    r / 4_294_967_296 % 65_536
}

pub fn j_of(r: u64) -> u64
    ensures { result ≡ j_of r }
{
    r / 65_536 % 65_536
}

pub fn k_of(r: u64) -> u64
    ensures { result ≡ k_of r }
{
    r % 65_536
}

// The bits too many, and those of a vertex number that is too large: one sum, so that no branch goes by the kind of the record.
pub fn legal(r: u64) -> bool
    ensures { result ≡ legal_record r }
{
    r / 18_014_398_509_481_984
        + (1 - r / 9_007_199_254_740_992 % 2) * (r % 281_474_976_710_656 / 1_048_576)
        == 0
}

// What two records share exactly where they name the same vertex of a structure, or the same voxel.
pub fn key(r: u64) -> u64
    ensures { result ≡ key_of r }
{
    let low = r % 18_014_398_509_481_984;
    if low < 9_007_199_254_740_992 {
        low
    } else {
        9_007_199_254_740_992 + low % 281_474_976_710_656
    }
}
