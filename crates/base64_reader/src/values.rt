// The next letter that is no blank, and the value of a letter.
ghost use Rattle.std.specs.Prelude.{◌≡◌};
ghost use Rattle.base64_text.specs.Base64.{worth};
ghost use Rattle.base64_reader.specs.Groups.{LetterTold, values_lent};

use letters::classes::is_blank;
use number_lists::chars::letter;

// The next letter: blanks are passed over.
#[tactic(auto, using(crate::proofs::Laws::Letters::passing))]
pub(crate) fn next_letter(text: &[u8], at: usize) -> Option<(u8, usize)>
    ensures { LetterTold text.now at result }
{
    let mut i = at;
    loop {
        let (b, j) = letter(text, i)?;
        i = j;
        if !is_blank(b) {
            return Some((b, j));
        }
    }
}

// The value of each byte as a letter, 64 being `@` and 65 `A`: lent to whoever reads letters, since a table is laid out at each use.
#[derive(Clone, Copy)]
pub struct LetterValues {
    pub table: [u8; 256],
    pub ghost are_values: { table ≡ values_lent },
}

pub fn letter_values() -> LetterValues
    ensures { result.table ≡ values_lent }
{
    LetterValues {
        table: *b"@@@@@@@@@@@@@@@@@@@@@@@@@@@@@@@@@@@@@@@@@@@>@@@?456789:;<=@@@A@@@\
      \x00\x01\x02\x03\x04\x05\x06\x07\x08\x09\x0a\x0b\x0c\x0d\x0e\x0f\x10\x11\x12\x13\x14\x15\x16\x17\x18\x19\
      @@@@@@\x1a\x1b\x1c\x1d\x1e\x1f !\"#$%&'()*+,-./0123@@@@@\
      @@@@@@@@@@@@@@@@@@@@@@@@@@@@@@@@@@@@@@@@@@@@@@@@@@@@@@@@@@@@@@@@@@@@@@@@@@@@@@@@@@@@@@@@@@@@@@@@@@@@@@@@@@@@@@@@@@@@@@@@@@@@@@@@",
    }
}

// The value of a letter; 65 for `=`, 64 for what is no letter.
pub(crate) fn value_of(b: u8, values: &LetterValues) -> u64
    ensures { result ≡ worth b }
{
    values.table[b as usize] as u64
}
