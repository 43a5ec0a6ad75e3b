// A number searched among numbers in order.
ghost use Rattle.std.specs.Prelude.{◌≡◌, true, ◌<◌, length};
ghost use Rattle.known_keys.specs.Order.{in_order};
ghost use Rattle.known_keys.specs.Known.{Nearest, Placed};

// By halves: where the number stands, if it stands there.
fn nearest(keys: &[u32], code: u32) -> usize
    requires { (in_order keys.now ≡ true) × (0 < length keys.now) }
    ensures { Nearest keys.now code result }
{
    let mut low = 0;
    let mut n = keys.len();
    while 1 < n {
        let half = n / 2;
        n -= half;
        if keys[low + half] <= code {
            low += half;
        }
    }
    low
}

// A place of the number, the last one found asked first, since labels come in runs; past the end where it stands nowhere.
pub fn place_in(keys: &[u32], last: usize, code: u32) -> usize
    requires { in_order keys.now ≡ true }
    ensures { Placed keys.now code result }
{
    if keys.len() <= last {
        return sought(keys, code);
    }
    if keys[last] == code {
        return last;
    }
    sought(keys, code)
}

fn sought(keys: &[u32], code: u32) -> usize
    requires { in_order keys.now ≡ true }
    ensures { Placed keys.now code result }
{
    if keys.len() == 0 {
        return 0;
    }
    let at = nearest(keys, code);
    if keys[at] == code {
        return at;
    }
    keys.len()
}
