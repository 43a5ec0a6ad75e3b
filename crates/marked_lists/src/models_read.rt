// The lists of all models of a map.
ghost use Rattle.std.specs.Prelude.{◌≤◌};
ghost use Rattle.models.specs.Verdicts.{volume_from};
ghost use Rattle.models.specs.Held.{Holding, models_at};
ghost use Rattle.marked_lists.specs.Told.{ModelsTold};

use super::listing::{Verdict, marked_list, verdict_by};
use super::places::{Grid, grid_for, surface_start};
use models::gather::Models;
use models::volume::Sizes;
use records::Index;
use repeats::clear;

fn all_lists(text: &[u8], models: Models, sizes: Sizes, grid: Grid, work: &mut [u64]) -> Verdict
    requires { Holding text.now models }
    ensures { ModelsTold (volume_from sizes) (models_at text.now models) work.old result work.new }
{
    let mut out = false;
    let mut apart = true;
    for i in 0..models.count {
        let first = surface_start(grid, Index(models.offset[i]));
        let v = marked_list(
            text,
            models.at[i],
            models.length[i],
            models.kind[i],
            sizes,
            grid,
            first,
            work,
        );
        if v.number == 11 {
            return Verdict {
                number: 11,
                apart: false,
            };
        }
        out = out | (v.number == 12);
        apart = apart & v.apart;
    }
    Verdict {
        number: verdict_by(true, out),
        apart: apart,
    }
}

// As many words as the map has indices, where there are so many.
fn words_for(length: u64, room: usize) -> usize
    ensures { result ≤ room }
{
    if length < room as u64 {
        length as usize
    } else {
        room
    }
}

// The marks that may be met are cleared first; that it is so is of no matter but for speed.
pub fn marked_lists(
    text: &[u8],
    models: Models,
    sizes: Sizes,
    length: u64,
    work: &mut [u64],
) -> Verdict
    requires { Holding text.now models }
    ensures { ModelsTold (volume_from sizes) (models_at text.now models) work.old result work.new }
{
    let words = words_for(length, work.len());
    clear(&mut work[0..words]);
    let grid = grid_for(sizes, words);
    all_lists(text, models, sizes, grid, work)
}
