// A list taken entry by entry: whether it is bad, the entry that holds an index, the entry of a kind.
ghost use Rattle.std.specs.Prelude.{◌≡◌, false, ◌+◌, ◌<◌, ◌≤◌, ltb};
ghost use Rattle.shortlist.specs.Runs.{kind_in, kind_of};
ghost use Rattle.shortlist.specs.Asking.{holds_index};
ghost use Rattle.shortlist.specs.Search as search;

use super::kinds::{is_record, kind_of, structure_kind};
use record_fields::find;
use records::Index;
use shortlist::{Model, Search, SearchFault, Told};

// Nothing seen yet: an index is asked, or a kind among so many records.
pub fn begin(index: Index, kind: u64, most: u64) -> Search
    ensures { result ≡ search.begun index.0 kind most }
{
    Search {
        index,
        kind,
        most,
        first: 0,
        count: 0,
        named: 0,
        tells: None,
        from: 0,
        size: 0,
    }
}

// Nothing seen yet, and a record is asked among so many.
pub fn begin_record(number: u64, most: usize) -> Search
    ensures { result ≡ search.begun 0 (kind_of number) most }
{
    begin(Index(0), kind_of(number), most as u64)
}

// A model's kind, where its structure is not above 31.
#[tactic(auto, unfolding(shortlist::specs::Runs::kind_in))]
fn kind_in(model: Model) -> u64
    requires { model.structure ≤ 31 }
    ensures is { result ≡ kind_in model }
    ensures small { result < 64 }
{
    structure_kind(model.voxels, model.structure)
}

// The index lies in the model's range.
#[tactic(auto, unfolding(shortlist::specs::Asking::holds_index))]
fn holds(index: Index, model: Model) -> bool
    ensures { result ≡ holds_index index.0 model }
{
    model.first.0 <= index.0 && index.0 - model.first.0 < model.count
}

// A range reaches past so many records.
fn is_past(most: u64, first: u64, count: u64) -> bool
    ensures { result ≡ ltb most (first + count) }
{
    most < first || most - first < count
}

// The model's range begins where the one before it ends.
#[tactic(auto, unfolding(shortlist::specs::Search::follows))]
fn follows(seen: Search, model: Model) -> bool
    ensures { result ≡ search.follows seen model }
{
    seen.first <= model.first.0 && model.first.0 - seen.first == seen.count
}

// The bit of the kind is set.
#[tactic(auto, unfolding(shortlist::specs::Search::bit_set))]
fn is_named(named: u64, kind: u64) -> bool
    requires { kind < 64 }
    ensures { result ≡ search.bit_set named kind }
{
    (named >> kind) % 2 == 1
}

// The entry makes the list bad.
#[tactic(auto, unfolding(shortlist::specs::Search::bad_entry, shortlist::specs::Asking::no_structure, shortlist::specs::Asking::empty))]
fn is_bad(seen: Search, model: Model) -> bool
    ensures { result ≡ search.bad_entry seen model }
{
    31 < model.structure
        || model.count == 0
        || !follows(seen, model)
        || is_named(seen.named, kind_in(model))
}

// With one entry more.
#[tactic(auto, using(shortlist::proofs::Laws::Entry::naming), unfolding(shortlist::specs::Search::with_entry))]
fn with_entry(seen: Search, model: Model) -> Search
    requires { search.bad_entry seen model ≡ false }
    ensures { result ≡ search.with_entry seen model }
{
    let kind = kind_in(model);
    let mut more = seen;
    more.first = model.first.0;
    more.count = model.count;
    more.named += 1 << kind;
    if holds(seen.index, model) {
        more.tells = Some(Told {
            voxels: model.voxels,
            structure: model.structure,
        });
    }
    if kind == seen.kind {
        more.from = model.first.0;
        more.size = model.count;
    }
    more
}

// What has been seen with this entry.
#[tactic(auto, using(shortlist::proofs::Laws::Search::next_bad, shortlist::proofs::Laws::Search::next_good))]
pub fn next(seen: Search, model: Model) -> Result<Search, SearchFault>
    ensures { result ≡ search.next_of seen model }
{
    if is_bad(seen, model) {
        return Err(SearchFault::BadList);
    }
    Ok(with_entry(seen, model))
}

// The type and structure at the index.
pub fn told(seen: Search) -> Result<Told, SearchFault>
    ensures { result ≡ search.told_of seen }
{
    seen.tells.ok_or(SearchFault::NotFound)
}

// The list names more records than there are, or the stretch of the record's own kind does not lie among so many.
#[tactic(auto, unfolding(shortlist::specs::Search::list_outside))]
fn is_outside(seen: Search, most: usize) -> bool
    ensures { result ≡ search.list_outside seen most }
{
    is_past(seen.most, seen.first, seen.count) || is_past(most as u64, seen.from, seen.size)
}

// The index of the record, looked for in the stretch of its own kind.
#[tactic(auto, using(shortlist::proofs::Laws::Entry::inside))]
pub fn sought(records: &[u64], seen: Search, number: u64) -> Result<Index, SearchFault>
    ensures { search.Finding records.now seen number result }
{
    if is_outside(seen, records.len()) {
        return Err(SearchFault::BadList);
    }
    if !is_record(number) {
        return Err(SearchFault::NotFound);
    }
    let start = seen.from as usize;
    let end = start + seen.size as usize;
    let said = find(&records[start..end], number);
    if said.number != 0 {
        return Err(SearchFault::NotFound);
    }
    Ok(Index(seen.from + said.place.0 as u64))
}
