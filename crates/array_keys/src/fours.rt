// The key of four bytes.
ghost use Rattle.std.specs.Prelude.{◌≡◌, ◌/◌, ◌%◌, ◌^◌, ◌<◌, ◌≤◌};
ghost use Rattle.base64_text.specs.Fours.{bits32, twos};
ghost use Rattle.array_keys.specs.Gathered.{key_by};

// The four bytes before the last `rest` of those held.
pub(crate) fn top_of(held: u64, rest: usize) -> u64
    requires { rest ≤ 2 }
    ensures { result ≡ held / 256 ^ rest % 4294967296 }
{
    match rest {
        2 => held / 65536 % 4294967296,
        1 => held / 256 % 4294967296,
        _ => held % 4294967296,
    }
}

// The bytes in the other order.
fn turned(n: u64) -> u64
    requires { n < 4294967296 }
    ensures { result ≡ bits32 (n % 256) (n / 256 % 256) (n / 65536 % 256) (n / 16777216) }
{
    n % 256 * 16777216 + n / 256 % 256 * 65536 + n / 65536 % 256 * 256 + n / 16777216
}

// Two's complement.
fn twos_of(n: u64) -> i32
    requires { n < 4294967296 }
    ensures { result ≡ twos n }
{
    if n < 2147483648 {
        return n as i32;
    }
    -1 - (4294967295 - n) as i32
}

// The key of four bytes, as one number with the first the greatest.
pub(crate) fn four_key(n: u64, little: bool) -> i32
    requires { n < 4294967296 }
    ensures { result ≡ key_by little n }
{
    twos_of(if little { turned(n) } else { n })
}

// The same of any number: its last four bytes are asked.
pub fn key_of(n: u64, little: bool) -> i32
    ensures { result ≡ key_by little (n % 4294967296) }
{
    four_key(n % 4294967296, little)
}
