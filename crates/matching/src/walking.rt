// Two sheets side by side: equal pairs are taken away, the others set aside with a bit for their sheet.
ghost use Rattle.std.specs.Prelude.{◌≡◌, false, ◌+◌, ◌≤◌, ◌<◌, eqb, length, get_or};
ghost use Rattle.lists.specs.Lists.{count, two_of};
ghost use Rattle.comparison.specs.Compare.{records_of, has_record};
ghost use Rattle.comparison.specs.Tagged.{place_in};
ghost use Rattle.matching.specs.Side.{Chosen, SetAside};

use super::count_matched;
use super::sheet::Sheet;
use records::Place;

// The sheets; whether the second is walked turned round; and whether records go down along the walk.
#[derive(Clone, Copy)]
struct Walk<'a> {
    first: Sheet<'a>,
    second: Sheet<'a>,
    turned: bool,
    down: bool,
}

// What a step does: takes a pair away, or sets a record of the first or of the second aside.
#[derive(Drop)]
pub(crate) enum Step {
    Pair,
    First,
    Second,
}

// How many pairs were taken away, and how many records set aside.
#[derive(Drop)]
struct Left {
    pairs: usize,
    aside: usize,
}

impl<'a> Walk<'a> {
    // Each sheet goes up or down by its ends; where they differ the second is turned round.
    fn new(first: Sheet<'a>, second: Sheet<'a>) -> Walk<'a>
        ensures { (result.first ≡ first.entry) × (result.second ≡ second.entry) }
    {
        let down = first.falls();
        Walk {
            first,
            second,
            turned: down != second.falls(),
            down,
        }
    }

    // The second's record of the j-th step.
    fn second_at(&self, j: usize) -> u64
        requires { j < self.now.second.count }
        ensures is { result ≡ get_or (records_of self.now.second.bytes.now)
            (place_in self.now.turned self.now.second.count j) 0 }
        ensures small { result < 18014398509481984 }
    {
        self.second.step(self.turned, j)
    }

    // Which of two records that differ is set aside: one that the other sheet's next step would meet stays, else the one that the order has
    // first.
    fn first_goes(&self, i: usize, j: usize) -> bool
        requires { (i < self.now.first.count) × (j < self.now.second.count) }
    {
        let x = self.first.record(Place(i));
        let y = self.second_at(j);
        if i + 1 < self.first.count && self.first.record(Place(i + 1)) == y {
            return true;
        }
        if j + 1 < self.second.count && self.second_at(j + 1) == x {
            return false;
        }
        if self.down { y < x } else { x < y }
    }

    fn next_step(&self, i: usize, j: usize) -> Step
        requires first_in { i ≤ self.now.first.count }
        requires second_in { j ≤ self.now.second.count }
        requires more { i + j < self.now.first.count + self.now.second.count }
        ensures { Chosen (records_of self.now.first.bytes.now) self.now.turned
            (records_of self.now.second.bytes.now) i j result }
    {
        if self.first.count <= i {
            Step::Second
        } else if self.second.count <= j {
            Step::First
        } else if self.first.record(Place(i)) == self.second_at(j) {
            Step::Pair
        } else if self.first_goes(i, j) {
            Step::First
        } else {
            Step::Second
        }
    }

    fn set_aside(&self, work: &mut [u64]) -> Left
        requires fits { self.now.first.count + self.now.second.count ≤ length work.old }
        requires single { two_of eqb (records_of self.now.first.bytes.now) ≡ false }
        ensures { SetAside self.now.first.bytes.now self.now.second.bytes.now work.new
            result.pairs result.aside }
    {
        let mut i = 0;
        let mut j = 0;
        let mut aside = 0;
        let mut pairs = 0;
        while i + j < self.first.count + self.second.count {
            match self.next_step(i, j) {
                Step::Pair => {
                    i += 1;
                    j += 1;
                    pairs += 1;
                }
                Step::First => {
                    work[aside] = self.first.record(Place(i)) * 2;
                    i += 1;
                    aside += 1;
                }
                Step::Second => {
                    work[aside] = self.second_at(j) * 2 + 1;
                    j += 1;
                    aside += 1;
                }
            }
        }
        Left { pairs, aside }
    }
}

// Of the records of the first sheet, which has none twice, those that the second has too. Room and repeats are asked for and not tested:
// the caller has tested both, in the order of the refusals, and a test is a walk over all records.
pub fn both_in(first: Sheet, second: Sheet, work: &mut [u64]) -> usize
    requires fits { first.count + second.count ≤ length work.old }
    requires single { two_of eqb (records_of first.bytes.now) ≡ false }
    ensures { result ≡ count (has_record (records_of second.entry.bytes.now))
        (records_of first.entry.bytes.now) }
{
    let left = Walk::new(first, second).set_aside(work);
    left.pairs + count_matched(&mut work[..left.aside])
}
