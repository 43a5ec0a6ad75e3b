// The key of a Label, as a number from 0 to 4,294,967,295 in the order of the keys.
ghost use Rattle.std.specs.Prelude.{◌≡◌, ◌<◌, ◌^◌};
ghost use Rattle.label_table.specs.Codes.{code_of, code_here};

use super::labels::key_of;

pub fn code_of(key: i32) -> u32
    ensures { result ≡ code_of key }
{
    (key as i64 + 2147483648) as u32
}

// That of the Label at `at`.
pub fn code_at(text: &[u8], at: usize) -> u32
    ensures { (result ≡ code_here text.now at) × (result < 2 ^ 32) }
{
    code_of(key_of(text, at))
}
