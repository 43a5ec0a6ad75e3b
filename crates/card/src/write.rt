// The bytes of a line.
ghost use Rattle.std.specs.Prelude.{◌≡◌, [], ◌∷◌, ◌+◌, ◌≤◌, length, take};
ghost use Rattle.grammar.specs.Bytes.{ascii};
ghost use Rattle.card.specs.Written.{in_tens, spaced, line_bytes, IsPrefixLen, Puts, Spells, WritesOut};
ghost use Rattle.cifti.specs.Maps.{kind_word, kind_bytes};

use super::line::Line;
use cifti::Kind;
use itoa::Buffer;
use records::{Index, Place, Vertex};

// The first `count` letters are a word.
#[derive(Drop)]
struct Letters {
    letters: [u8; 8],
    count: usize,
}

// A word and the byte behind it; answers the place behind both.
fn put_word(out: &mut [u8], at: usize, word: &[u8], then: u8) -> usize
    requires { (length word.now ≤ 20) × (at + 21 ≤ length out.old) }
    ensures { Puts word.now then at out.old result out.new }
{
    let next = at + word.len();
    out[at..next].copy_from_slice(word);
    out[next] = then;
    next + 1
}

fn put_number(out: &mut [u8], at: usize, n: u64, then: u8) -> usize
    requires { at + 21 ≤ length out.old }
    ensures { Puts (in_tens n) then at out.old result out.new }
{
    let mut digits = Buffer::new();
    let word = digits.format(n);
    put_word(out, at, word.as_bytes(), then)
}

fn refused_row(out: &mut [u8], number: u64) -> usize
    requires { 128 ≤ length out.old }
    ensures { Spells (spaced (ascii "refused" ∷ in_tens number ∷ [])) result out.new }
{
    let at = put_word(out, 0, b"refused", b' ');
    put_number(out, at, number, b'\n')
}

// The word of a kind; no line is of kind None.
fn kind_word(kind: Kind) -> Letters
    ensures { (take result.count result.letters ≡ kind_bytes kind) × ((result.count ≡ length (kind_bytes kind)) × (result.count ≤ 8)) }
{
    match kind {
        Kind::None => Letters {
            letters: *b"        ",
            count: 0,
        },
        Kind::Brain => Letters {
            letters: *b"brain   ",
            count: 5,
        },
        Kind::Series => Letters {
            letters: *b"series  ",
            count: 6,
        },
        Kind::Scalars => Letters {
            letters: *b"scalars ",
            count: 7,
        },
        Kind::Labels => Letters {
            letters: *b"labels  ",
            count: 6,
        },
    }
}

fn put_kind(out: &mut [u8], at: usize, kind: Kind) -> usize
    requires { at + 21 ≤ length out.old }
    ensures { Puts (kind_word kind) 32 at out.old result out.new }
{
    let word = kind_word(kind);
    let letters = word.letters;
    put_word(out, at, &letters[..word.count], b' ')
}

fn map_row(out: &mut [u8], dimension: u64, kind: Kind, size: u64) -> usize
    requires { 128 ≤ length out.old }
    ensures { Spells (spaced (in_tens dimension ∷ kind_word kind ∷ in_tens size ∷ [])) result out.new }
{
    let second = put_number(out, 0, dimension, b' ');
    let third = put_kind(out, second, kind);
    put_number(out, third, size, b'\n')
}

fn map_at_row(out: &mut [u8], dimension: u64, kind: Kind, size: u64, start: Place) -> usize
    requires { 128 ≤ length out.old }
    ensures { Spells (spaced (in_tens dimension ∷ kind_word kind ∷ in_tens size ∷ in_tens start.0 ∷ [])) result out.new }
{
    let second = put_number(out, 0, dimension, b' ');
    let third = put_kind(out, second, kind);
    let fourth = put_number(out, third, size, b' ');
    put_number(out, fourth, start.0 as u64, b'\n')
}

fn surface_row(out: &mut [u8], index: Index, structure: u64, vertex: Vertex) -> usize
    requires { 128 ≤ length out.old }
    ensures { Spells (spaced (in_tens index.0 ∷ ascii "S" ∷ in_tens structure ∷ in_tens vertex.0 ∷ [])) result out.new }
{
    let second = put_number(out, 0, index.0, b' ');
    let third = put_word(out, second, b"S", b' ');
    let fourth = put_number(out, third, structure, b' ');
    put_number(out, fourth, vertex.0, b'\n')
}

fn voxel_row(out: &mut [u8], index: Index, structure: u64, i: u64, j: u64, k: u64) -> usize
    requires { 128 ≤ length out.old }
    ensures { Spells (spaced (in_tens index.0 ∷ ascii "V" ∷ in_tens structure ∷ in_tens i ∷ in_tens j ∷ in_tens k ∷ [])) result
        out.new }
{
    let second = put_number(out, 0, index.0, b' ');
    let third = put_word(out, second, b"V", b' ');
    let fourth = put_number(out, third, structure, b' ');
    let fifth = put_number(out, fourth, i, b' ');
    let sixth = put_number(out, fifth, j, b' ');
    put_number(out, sixth, k, b'\n')
}

// Every line fits 128 bytes.
fn spell(line: Line, out: &mut [u8]) -> usize
    requires { 128 ≤ length out.old }
    ensures { Spells (line_bytes line) result out.new }
{
    match line {
        Line::Accepted => put_word(out, 0, b"ok", b'\n'),
        Line::Refused(number) => refused_row(out, number),
        Line::Map {
            dimension,
            kind,
            length,
        } => map_row(out, dimension, kind, length),
        Line::MapAt {
            dimension,
            kind,
            length,
            start,
        } => map_at_row(out, dimension, kind, length, start),
        Line::Surface {
            index,
            structure,
            vertex,
        } => surface_row(out, index, structure, vertex),
        Line::Voxel {
            index,
            structure,
            i,
            j,
            k,
        } => voxel_row(out, index, structure, i, j, k),
        Line::End => 0,
    }
}

// The line goes to the start of the bytes lent; answers how many, 0 where they are too few.
pub fn write_line(line: Line, out: &mut [u8]) -> usize
    ensures writes_out { WritesOut (line_bytes line) out.old result out.new }
    ensures prefix_len { IsPrefixLen result out.new }
    ensures fits { length (line_bytes line) ≤ 128 }
{
    let mut space = [0u8; 128];
    let n = spell(line, &mut space);
    if out.len() < n {
        return 0;
    }
    out[..n].copy_from_slice(&space[..n]);
    n
}
