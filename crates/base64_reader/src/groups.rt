// The bytes of the next four letters.
ghost use Rattle.std.specs.Prelude.{◌≡◌, [], suc, ◌<◌, ◌≤◌};
ghost use Rattle.nodes.specs.Texts.{says_at, left};
ghost use Rattle.base64_text.specs.Base64.{unblanked, one_byte, two_bytes, four_ending};
ghost use Rattle.base64_reader.specs.Groups.{bits_of, LastTold, FourTold, GroupTold, QuickGroup};

use super::Group;
use super::values::{LetterValues, next_letter, value_of};

// One byte in 24 bits, the others being 0.
fn one_byte(bits: u64, at: usize) -> Group
    requires { bits < 16777216 }
    ensures { LastTold (one_byte bits) at result }
{
    if bits % 65536 != 0 {
        return Group::Bad;
    }
    Group::Bytes(bits / 65536, 1, at)
}

// Two bytes in 24 bits, the others being 0.
fn two_bytes(bits: u64, at: usize) -> Group
    requires { bits < 16777216 }
    ensures { LastTold (two_bytes bits) at result }
{
    if bits % 256 != 0 {
        return Group::Bad;
    }
    Group::Bytes(bits / 256, 2, at)
}

// Three letters before the last `=`, with nothing behind it.
#[tactic(auto, using(crate::proofs::Laws::Groups::lasting))]
fn last_of(p: u64, q: u64, r: u64, at: usize) -> Group
    ensures { LastTold (four_ending p q r []) at result }
{
    if 64 <= p || 64 <= q {
        return Group::Bad;
    }
    if r == 65 {
        return one_byte(p * 262144 + q * 4096, at);
    }
    if 64 <= r {
        return Group::Bad;
    }
    two_bytes(p * 262144 + q * 4096 + r * 64, at)
}

// The 24 bits of four values; 16777216 where one of the four is no value.
fn bits_of(p: u64, q: u64, r: u64, s: u64) -> u64
    ensures { result ≡ bits_of p q r s }
{
    if (64 <= p) | ((64 <= q) | ((64 <= r) | (64 <= s))) {
        return 16777216;
    }
    p * 262144 + q * 4096 + r * 64 + s
}

// Four letters by their values, `at` behind them.
#[tactic(auto, using(crate::proofs::Laws::Groups::fours))]
fn group_of(text: &[u8], p: u64, q: u64, r: u64, s: u64, at: usize) -> Group
    ensures { FourTold text.now p q r s at result }
{
    if s == 65 {
        return match next_letter(text, at) {
            Some((_, _)) => Group::Bad,
            None => last_of(p, q, r, at),
        };
    }
    let bits = bits_of(p, q, r, s);
    if bits < 16777216 {
        return Group::Bytes(bits, 3, at);
    }
    Group::Bad
}

// The next four letters, whatever stands between them.
#[tactic(auto, using(crate::proofs::Laws::Groups::grouping))]
pub fn any_group(text: &[u8], at: usize, values: &LetterValues) -> Group
    ensures { GroupTold text.now at result }
{
    let Some((a, i)) = next_letter(text, at) else {
        return Group::End;
    };
    let Some((b, j)) = next_letter(text, i) else {
        return Group::Bad;
    };
    let Some((c, k)) = next_letter(text, j) else {
        return Group::Bad;
    };
    let Some((d, l)) = next_letter(text, k) else {
        return Group::Bad;
    };
    group_of(
        text,
        value_of(a, values),
        value_of(b, values),
        value_of(c, values),
        value_of(d, values),
        l,
    )
}

// The 24 bits of four plain letters at `at`, those that stand in the text as they are; 16777216 where there are none: the
// number that `bits_of` of specs/Groups has for none, and so no Option.
#[tactic(auto, using(crate::proofs::Laws::Quick::quickly))]
pub fn quick_bits(text: &[u8], at: usize, values: &LetterValues) -> u64
    ensures { QuickGroup text.now at result }
{
    if text.len() < 4 || text.len() - 4 < at {
        return 16777216;
    }
    bits_of(
        value_of(text[at], values),
        value_of(text[at + 1], values),
        value_of(text[at + 2], values),
        value_of(text[at + 3], values),
    )
}
