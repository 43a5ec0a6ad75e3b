// How many lines the card has.
ghost use Rattle.std.specs.Prelude.{◌≡◌, length};
ghost use Rattle.card.specs.Card.{dimension_lines, record_lines, answer_dimensions, card_lines};

use super::line::{least, length_from, lines_of};
use cifti::Answer;
use records::Place;

fn dimension_count(answer: Answer) -> usize
    ensures { result ≡ length (dimension_lines 0 (answer_dimensions answer)) }
{
    let mut n = 0;
    let mut d = 0;
    while d < 3 {
        n += lines_of(answer.dimensions[d]);
        d += 1;
    }
    n
}

// Each record has a line up to the end of the last stretch.
fn record_count(answer: Answer, records: &[u64]) -> usize
    ensures { result ≡ length (record_lines 3 0 (answer_dimensions answer) records.now) }
{
    let mut at = 0;
    let mut round: u64 = 0;
    while round < 3 {
        at += least(length_from(answer, Place(at)) as usize, records.len() - at);
        round += 1;
    }
    at
}

pub fn line_count(answer: Answer, records: &[u64]) -> usize
    ensures { result ≡ card_lines answer records.now }
{
    if answer.number != 0 {
        return 1;
    }
    let maps = dimension_count(answer);
    let located = record_count(answer, records);
    1 + maps + located
}
