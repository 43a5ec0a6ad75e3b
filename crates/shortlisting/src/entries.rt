// The entries of a lent list, read in turn.
ghost use Rattle.std.specs.Prelude.{◌≡◌};
ghost use Rattle.shortlist.specs.Search.{next_of, folded};

use super::search::next;
use shortlist::{Model, Search, SearchFault};

// All entries, taken in turn, up to one that makes the list bad.
pub(crate) fn seen(models: &[Model], start: Search) -> Result<Search, SearchFault>
    ensures { result ≡ folded next_of start models.now }
{
    let mut state = start;
    for model in models {
        state = next(state, *model)?;
    }
    Ok(state)
}
