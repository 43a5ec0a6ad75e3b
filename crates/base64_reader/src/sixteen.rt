// Sixteen plain letters at once: those that stand in the text as they are.
ghost use Rattle.std.specs.Prelude.{◌≡◌};
ghost use Rattle.base64_text.specs.Base64.{is_value, worth};
ghost use Rattle.base64_reader.specs.Groups.{sixteen_at};

// One of the 64 letters.
fn is_letter(b: u8) -> bool
    ensures { result ≡ is_value (worth b) }
{
    (((b'A' <= b) & (b <= b'Z')) | ((b'a' <= b) & (b <= b'z')))
        | (((b'0' <= b) & (b <= b'9')) | ((b == b'+') | (b == b'/')))
}

// Whether sixteen letters stand at `at`. All sixteen are looked at, so that a few instructions can do it.
#[tactic(auto, using(crate::proofs::Laws::Sixteen::looking))]
pub(crate) fn sixteen_letters(text: &[u8], at: usize) -> bool
    ensures { result ≡ sixteen_at text.now at }
{
    if text.len() < 16 {
        return false;
    }
    if text.len() - 16 < at {
        return false;
    }
    let mut good = true;
    for k in 0..16 {
        good = is_letter(text[at + k]) & good;
    }
    good
}
