// The bytes of lines, put one behind the other where there is room.
ghost use Rattle.std.specs.Prelude.{◌≤◌, length};

pub const ROOM: usize = 131072;

#[derive(Drop)]
pub struct Lines {
    bytes: [u8; ROOM],
    used: usize,
    ghost within: { used ≤ length bytes },
}

impl Lines {
    pub fn new() -> Lines {
        Lines {
            bytes: [0; ROOM],
            used: 0,
        }
    }

    pub fn put(&mut self, b: u8) {
        if self.used < ROOM {
            self.bytes[self.used] = b;
            self.used += 1;
        }
    }

    pub fn put_all(&mut self, part: &[u8]) {
        for b in part {
            self.put(*b);
        }
    }

    // A byte in hexadecimal.
    pub fn put_hex(&mut self, b: u8) {
        self.put(digit(b / 16));
        self.put(digit(b % 16));
    }

    pub fn all(&self) -> &[u8] {
        &self.bytes[..self.used]
    }
}

// The digit of a number below 16.
fn digit(d: u8) -> u8 {
    let digits = b"0123456789abcdef";
    let k = (d % 16) as usize;
    digits[k]
}
