// The lines of the card, each by its number.
ghost use Rattle.std.specs.Prelude.{◌≡◌, ◌++◌, min, length, get_or};
ghost use Rattle.card.specs.Card.{record_line, map_line, dimension_line, dimension_lines, stretch_begins, length_from, record_lines};
ghost use Rattle.card.specs.Card.{answer_dimensions, card};

use answers::{is_brain, kind_number};
use cifti::{Answer, Dimension, Kind};
use records::{Index, Place, Vertex};

#[derive(Clone, Copy)]
pub enum Line {
    Accepted,
    Refused(u64),
    Map {
        dimension: u64,
        kind: Kind,
        length: u64,
    },
    // With where its stretch begins.
    MapAt {
        dimension: u64,
        kind: Kind,
        length: u64,
        start: Place,
    },
    Surface {
        index: Index,
        structure: u64,
        vertex: Vertex,
    },
    Voxel {
        index: Index,
        structure: u64,
        i: u64,
        j: u64,
        k: u64,
    },
    // Past the last line.
    End,
}

// The line of the record of an index.
pub fn record_line(index: Index, r: u64) -> Line
    ensures { result ≡ record_line index.0 r }
{
    if record_fields::is_voxel(r) {
        return Line::Voxel {
            index: index,
            structure: record_fields::structure_of(r),
            i: record_fields::i_of(r),
            j: record_fields::j_of(r),
            k: record_fields::k_of(r),
        };
    }
    Line::Surface {
        index: index,
        structure: record_fields::structure_of(r),
        vertex: record_fields::vertex_of(r),
    }
}

fn map_line(d: u64, dimension: Dimension) -> Line
    ensures { result ≡ map_line d dimension }
{
    let kind = dimension.kind;
    let start = dimension.start;
    if is_brain(kind) {
        return Line::MapAt {
            dimension: d,
            kind: kind,
            length: dimension.length,
            start: start,
        };
    }
    Line::Map {
        dimension: d,
        kind: kind,
        length: dimension.length,
    }
}

// How many lines a dimension has: one, or none where there is no such dimension.
pub(crate) fn lines_of(dimension: Dimension) -> usize
    ensures { result ≡ length (dimension_line 0 dimension) }
{
    let kind = dimension.kind;
    if kind_number(kind) == 0 {
        return 0;
    }
    1
}

fn begins_at(dimension: Dimension, at: Place) -> bool
    ensures { result ≡ stretch_begins at.0 dimension }
{
    let kind = dimension.kind;
    let start = dimension.start;
    is_brain(kind) & (start.0 == at.0)
}

// How long the stretch is that begins at `at`; 0 where none begins.
pub(crate) fn length_from(answer: Answer, at: Place) -> u64
    ensures { result ≡ length_from at.0 (answer_dimensions answer) }
{
    let mut d = 0;
    while d < 3 {
        let dimension = answer.dimensions[d];
        if begins_at(dimension, at) {
            return dimension.length;
        }
        d += 1;
    }
    0
}

pub(crate) fn least(a: usize, b: usize) -> usize
    ensures { result ≡ min a b }
{
    if a < b { a } else { b }
}

// The n-th of the lines of records: stretches are passed over whole.
fn record_line_at(answer: Answer, records: &[u64], n: usize) -> Line
    ensures { result ≡ get_or (record_lines 3 0 (answer_dimensions answer) records.now) n Line.End }
{
    let mut left = n;
    let mut at = 0;
    let mut round: u64 = 0;
    while round < 3 {
        let reach = least(length_from(answer, Place(at)) as usize, records.len() - at);
        if left < reach {
            return record_line(Index(left as u64), records[at + left]);
        }
        left -= reach;
        at += reach;
        round += 1;
    }
    Line::End
}

// The n-th of the lines of dimensions and then of records.
fn accepted_line(answer: Answer, records: &[u64], n: usize) -> Line
    ensures { result ≡ get_or (dimension_lines 0 (answer_dimensions answer)
        ++ record_lines 3 0 (answer_dimensions answer) records.now) n Line.End }
{
    let mut left = n;
    let mut d = 0;
    while d < 3 {
        let dimension = answer.dimensions[d];
        let lines = lines_of(dimension);
        if left < lines {
            return map_line(d as u64, dimension);
        }
        left -= lines;
        d += 1;
    }
    record_line_at(answer, records, left)
}

// The n-th line of the card, from 0; End past the last.
pub fn line_at(answer: Answer, records: &[u64], n: usize) -> Line
    ensures { result ≡ get_or (card answer records.now) n Line.End }
{
    let number = answer.number;
    if number != 0 {
        if n == 0 {
            return Line::Refused(number);
        }
        return Line::End;
    }
    if n == 0 {
        return Line::Accepted;
    }
    accepted_line(answer, records, n - 1)
}
