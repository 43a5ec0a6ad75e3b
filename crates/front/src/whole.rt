// The front of a file, and its part.
ghost use Rattle.nifti.specs.File.{Fronts, FrontPart, refused_front};
ghost use Rattle.nifti.specs.Front.{front_said};
ghost use Rattle.std.specs.Prelude.{◌≡◌};

use super::header::Header;
use super::list::{text_body, without_zeros};
use nifti::{Front, Refusal};

fn found(file: &[u8]) -> Result<Front, Refusal>
    ensures { Fronts file.now (front_said result) }
{
    let header = Header::of(file)?;
    let lengths = header.lengths()?;
    let body = text_body(&header)?;
    let text = without_zeros(&file[body.start..body.start + body.length]);
    Ok(Front {
        number: 0,
        count: header.length_count() as u64,
        lengths,
        start: body.start,
        length: text.len(),
    })
}

pub fn front(file: &[u8]) -> Front
    ensures { Fronts file.now result }
{
    match found(file) {
        Ok(front) => front,
        Err(refusal) => Front {
            number: refusal as u64,
            count: 0,
            lengths: [0; 3],
            start: 0,
            length: 0,
        },
    }
}

// The header text inside the file; nothing where the front is refused.
pub fn part(file: &[u8]) -> &[u8]
    ensures { FrontPart file.now result.now }
{
    let said = front(file);
    &file[said.start..said.start + said.length]
}
