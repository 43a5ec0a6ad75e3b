// The table of a header text, or the one right refusal.
ghost use Rattle.cifti.specs.Answer.{Reads};

use super::later::later_refusal;
use answers::refused;
use cifti::Answer;
use describing::accepted;
use filling::fill_all;
use judging::judged;
use repeats::clear;
use survey::surveyed;

pub fn read(text: &[u8], lengths: &[u64], records: &mut [u64], work: &mut [u64]) -> Answer
    ensures { Reads text.now lengths.now records.old work.old result records.new
        work.new }
{
    let s = surveyed(text, lengths);
    let n = s.number;
    let maps = s.maps;
    if n != 0 {
        clear(work);
        return refused(n);
    }
    let models = judged(text, maps, work);
    let found = later_refusal(text, maps, models, records.len(), work);
    clear(work);
    if found != 0 {
        return refused(found);
    }
    fill_all(text, maps, models, records);
    accepted(text, maps)
}
