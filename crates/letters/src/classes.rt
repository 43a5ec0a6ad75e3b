// The classes of bytes. Those that go over each byte are made of `&` and `|`: `matches!` branches, and was slower.
ghost use Rattle.std.specs.Prelude.{◌≡◌};
ghost use Rattle.grammar.specs.Bytes.{between, blank, name_start, name_byte, quote};
ghost use Rattle.grammar.specs.Characters.{lead1, lead2, lead3, lead4, continues, noncharacter};

#[tactic(auto, unfolding(grammar::specs::Bytes::blank))]
pub fn is_blank(b: u8) -> bool
    ensures { result ≡ blank b }
{
    (b == b' ') | ((b == b'\t') | ((b == b'\n') | (b == b'\r')))
}

#[tactic(auto, unfolding(grammar::specs::Bytes::name_start, grammar::specs::Bytes::letter))]
pub fn is_name_start(b: u8) -> bool
    ensures { result ≡ name_start b }
{
    (((b'A' <= b) & (b <= b'Z')) | ((b'a' <= b) & (b <= b'z'))) | (b == b'_')
}

#[tactic(auto, unfolding(grammar::specs::Bytes::name_byte, grammar::specs::Bytes::letter))]
pub fn is_name_byte(b: u8) -> bool
    ensures { result ≡ name_byte b }
{
    (((b'A' <= b) & (b <= b'Z')) | ((b'a' <= b) & (b <= b'z')))
        | (((b'0' <= b) & (b <= b'9'))
            | ((b == b'_') | ((b == b'-') | ((b == b'.') | (b == b':')))))
}

#[tactic(auto, unfolding(grammar::specs::Bytes::quote))]
pub fn is_quote(b: u8) -> bool
    ensures { result ≡ quote b }
{
    matches!(b, b'"' | b'\'')
}

// Most characters of one byte: a test that serves for speed alone.
pub fn is_plain(b: u8) -> bool
    ensures { result ≡ between 32 127 b }
{
    matches!(b, 32..=127)
}

// A character of one byte.
#[tactic(auto, unfolding(grammar::specs::Characters::lead1, grammar::specs::Bytes::blank))]
pub fn is_lead1(a: u8) -> bool
    ensures { result ≡ lead1 a }
{
    matches!(a, b' ' | b'\t' | b'\n' | b'\r' | 32..=127)
}

#[tactic(auto, unfolding(grammar::specs::Characters::lead2))]
pub fn is_lead2(a: u8) -> bool
    ensures { result ≡ lead2 a }
{
    matches!(a, 194..=223)
}

#[tactic(auto, unfolding(grammar::specs::Characters::continues))]
pub fn is_continuing(b: u8) -> bool
    ensures { result ≡ continues b }
{
    matches!(b, 128..=191)
}

#[tactic(auto, unfolding(grammar::specs::Characters::lead3, grammar::specs::Characters::continues))]
pub fn is_lead3(a: u8, b: u8) -> bool
    ensures { result ≡ lead3 a b }
{
    ((a == 224) & ((160 <= b) & (b <= 191)))
        | ((((225 <= a) & (a <= 236)) & ((128 <= b) & (b <= 191)))
            | (((a == 237) & ((128 <= b) & (b <= 159)))
                | (((238 <= a) & (a <= 239)) & ((128 <= b) & (b <= 191)))))
}

#[tactic(auto, unfolding(grammar::specs::Characters::lead4, grammar::specs::Characters::continues))]
pub fn is_lead4(a: u8, b: u8) -> bool
    ensures { result ≡ lead4 a b }
{
    ((a == 240) & ((144 <= b) & (b <= 191)))
        | ((((241 <= a) & (a <= 243)) & ((128 <= b) & (b <= 191)))
            | ((a == 244) & ((128 <= b) & (b <= 143))))
}

// U+FFFE and U+FFFF.
#[tactic(auto, unfolding(grammar::specs::Characters::noncharacter))]
pub fn is_noncharacter(a: u8, b: u8, c: u8) -> bool
    ensures { result ≡ noncharacter a b c }
{
    matches!((a, b, c), (239, 191, 190..))
}
