// A sheet that is no longer judged, and its records, from the front or turned round.
ghost use Rattle.std.specs.Prelude.{◌≡◌, true, ◌<◌, get_or};
ghost use Rattle.records.specs.Sheet.{count_of};
ghost use Rattle.comparison.specs.Compare.{records_of, well_formed};
ghost use Rattle.comparison.specs.Tagged.{place_in};

use records::Place;
use sheets::record_at;

// A sheet in good form, and how many records it has.
#[derive(Clone, Copy)]
pub struct Sheet<'a> {
    pub bytes: &'a [u8],
    pub count: usize,
    pub ghost formed: { well_formed bytes.now ≡ true },
    pub ghost counts: { count ≡ count_of bytes.now },
}

impl Sheet<'_> {
    pub(crate) fn record(&self, place: Place) -> u64
        requires { place.0 < self.now.count }
        ensures is { result ≡ get_or (records_of self.now.bytes.now) place.0 0 }
        ensures small { result < 18014398509481984 }
    {
        record_at(self.bytes, usize::from(self.bytes[0]), place)
    }

    // The record of the j-th step, from the front or turned round.
    #[tactic(auto, unfolding(comparison::specs::Tagged::place_in))]
    pub(crate) fn step(&self, turned: bool, j: usize) -> u64
        requires { j < self.now.count }
        ensures is { result ≡ get_or (records_of self.now.bytes.now) (place_in turned self.now.count j) 0 }
        ensures small { result < 18014398509481984 }
    {
        if turned {
            self.record(Place(self.count - (j + 1)))
        } else {
            self.record(Place(j))
        }
    }

    // The last record is below the first.
    pub(crate) fn falls(&self) -> bool {
        self.record(Place(self.count - 1)) < self.record(Place(0))
    }
}
