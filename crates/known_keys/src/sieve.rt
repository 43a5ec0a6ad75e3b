// A sieve: the numbers of a part are marked by their low bits, so that most of those that stand nowhere in it are told by one look.
ghost use Rattle.std.specs.Prelude.{◌≡◌};
ghost use Rattle.known_keys.specs.Sieve.{sieve_place, sifted, Sieve};

use marks::{is_marked, mark};

// The place of a number among 524,288 marks.
fn sieve_place(code: u32) -> u64
    ensures { result ≡ sieve_place code }
{
    code as u64 % 524288
}

// Marks the numbers, in 8,192 words if there are so many.
pub fn sieve(codes: &[u32], words: &mut [u64])
    ensures { Sieve codes.now words.new }
{
    for code in codes {
        mark(words, sieve_place(*code));
    }
}

// Whether the number is marked; without so many words every number passes.
pub fn passes(words: &[u64], code: u32) -> bool
    ensures { result ≡ sifted words.now code }
{
    if words.len() < 8192 {
        return true;
    }
    is_marked(words, sieve_place(code))
}
