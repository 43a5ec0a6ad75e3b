// Where the list of a model begins, and its voxels.
ghost use Rattle.models.specs.Listings.{StartOf};
ghost use Rattle.models.specs.Numbers.{NextVoxel};

use elements::children::first_child;
use inside::texts::text_start;
use number_lists::{next_number, quick_number};
use numbers::Next;

// The next voxel of a list and the place behind it, or the end; `Cut`: one or two numbers are left.
#[derive(Clone, Copy)]
pub enum Triple {
    Voxel(u64, u64, u64, usize),
    End,
    Cut,
}

// The next voxel from `at` on, in a list that is in form, whatever stands before, between and behind its numbers.
fn any_voxel(text: &[u8], at: usize) -> Triple
    ensures { NextVoxel text.now at result }
{
    match next_number(text, at) {
        Next::Number(i, second) => match next_number(text, second) {
            Next::Number(j, third) => match next_number(text, third) {
                Next::Number(k, behind) => Triple::Voxel(i, j, k, behind),
                Next::End => Triple::Cut,
                Next::Bad => Triple::Cut,
            },
            Next::End => Triple::Cut,
            Next::Bad => Triple::Cut,
        },
        Next::End => Triple::End,
        Next::Bad => Triple::End,
    }
}

// The next voxel from `at` on, in a list that is in form: three quick readings first, one behind the other. Each is left where it says
// nothing, before the place behind it is asked for, so that this place does not wait for the number's value.
pub fn next_voxel(text: &[u8], at: usize) -> Triple
    ensures { NextVoxel text.now at result }
{
    let first = quick_number(text, at);
    if first != 0 {
        let two = at + (first % 16) as usize;
        let second = quick_number(text, two);
        if second != 0 {
            let three = two + (second % 16) as usize;
            let third = quick_number(text, three);
            if third != 0 {
                let behind = three + (third % 16) as usize;
                return Triple::Voxel(first / 16, second / 16, third / 16, behind);
            }
        }
    }
    any_voxel(text, at)
}

// Where the list of the model at `at` begins, where a model stands there.
pub fn list_start(text: &[u8], at: usize) -> Option<usize>
    ensures { StartOf text.now at result }
{
    match first_child(text, at) {
        Some(k) => text_start(text, k),
        None => None,
    }
}
