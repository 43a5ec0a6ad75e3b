// Blocks of sixteen bytes. Each test goes over all sixteen in a loop of its own, so that one instruction can do it.
ghost use Rattle.std.specs.Prelude.{◌≡◌, ◌+◌, ◌≤◌, length};
ghost use Rattle.steps.specs.Blocks.{through, Through, other, shown, quick};

// Whether the byte is none of the sixteen from `at` on.
pub fn block_lacks(text: &[u8], at: usize, sign: u8) -> bool
    requires { at + 16 ≤ length text.now }
    ensures { result ≡ through (other sign) text.now at (at + 16) }
{
    let mut free = true;
    for i in 0..16 {
        free &= text[at + i] != sign;
    }
    free
}

// Whether each of the sixteen is from 32 to 127, or a line feed. One range is one comparison; 127 by itself would be a chain of them.
fn block_shown(text: &[u8], at: usize) -> bool
    requires { at + 16 ≤ length text.now }
    ensures { result ≡ through shown text.now at (at + 16) }
{
    let mut free = true;
    for k in 0..16 {
        let b = text[at + k];
        free &= ((31 < b) & (b <= 127)) | (b == b'\n');
    }
    free
}

// Whether all sixteen are plain, and no tab or carriage return among them.
fn block_quick(text: &[u8], at: usize) -> bool
    requires { at + 16 ≤ length text.now }
    ensures { result ≡ through quick text.now at (at + 16) }
{
    block_lacks(text, at, b'<')
        & (block_lacks(text, at, b'&') & (block_lacks(text, at, b']') & block_shown(text, at)))
}

// A place up to which all bytes are plain, reached by blocks.
pub fn past_quick(text: &[u8], at: usize) -> usize
    ensures { Through quick text.now at result }
{
    let mut i = at;
    while 16 <= text.len().saturating_sub(i) && block_quick(text, i) {
        i += 16;
    }
    i
}
