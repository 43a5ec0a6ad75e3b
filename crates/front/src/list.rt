// The list of extensions: whether it is one, and where the body of the first of code 32 stands in it; a body without the zeros at its end.
ghost use Rattle.std.specs.Prelude.{◌≡◌, true, false, ◌≤◌, length, None, IsTrue, MatchResult};
ghost use Rattle.std.proofs.Math.Seq.{slice};
ghost use Rattle.nifti.specs.Fields.{number_at};
ghost use Rattle.nifti.specs.Extensions.{without_zeros};
ghost use Rattle.nifti.specs.Model.{good_size, cut, text_from, text_in};
ghost use Rattle.nifti.specs.declared.Refusal.TheVariants.{NoList};

use super::fields::four;
use super::header::{Header, LIST};
use nifti::{Order, Refusal, Taken};

fn good_size(size: usize, left: usize) -> bool
    ensures value { result ≡ good_size size left }
    ensures inside { IsTrue result → (16 ≤ size) × (size ≤ left) }
{
    16 <= size && size <= left && size <= 2_147_483_647 && size % 16 == 0
}

// The size of the first extension of a list.
fn first_size(list: &[u8], order: Order) -> Result<usize, Refusal>
    ensures { MatchResult result
        (λ n. (n ≡ number_at order 4 0 list.now) × (good_size n (length list.now) ≡ true)
        × (16 ≤ n) × (n ≤ length list.now))
        (λ e. (e ≡ NoList) × (good_size (number_at order 4 0 list.now) (length list.now) ≡ false)) }
{
    if list.len() < 16 {
        return Err(Refusal::NoList);
    }
    let size = four(list, 0, order) as usize;
    if good_size(size, list.len()) {
        Ok(size)
    } else {
        Err(Refusal::NoList)
    }
}

// The list stands from 544 up to `end`.
fn walked(file: &[u8], order: Order, end: usize) -> Result<Taken, Refusal>
    requires { (544 ≤ end) × (end ≤ length file.now) }
    ensures { result ≡ text_from None 544 (cut order (slice 544 end file.now)) }
{
    let mut place = LIST;
    let mut text = None;
    while place < end {
        let rest = &file[place..end];
        let size = first_size(rest, order)?;
        if text.is_none() && four(rest, 4, order) == 32 {
            text = Some(Taken {
                start: place + 8,
                length: size - 8,
            });
        }
        place += size;
    }
    text.ok_or(Refusal::NoText)
}

pub(crate) fn text_body(header: &Header) -> Result<Taken, Refusal>
    ensures { result ≡ text_in header.now.file.now }
{
    let file = header.file;
    if file[540] == 0 {
        return Err(Refusal::NoText);
    }
    let end = header.end();
    if file.len() < end {
        return Err(Refusal::NoList);
    }
    walked(file, header.order, end)
}

pub(crate) fn without_zeros(bytes: &[u8]) -> &[u8]
    ensures { result.now ≡ without_zeros bytes.now }
{
    let mut kept = bytes;
    while let [before @ .., last] = kept {
        if *last != 0 {
            return kept;
        }
        kept = before;
    }
    kept
}
