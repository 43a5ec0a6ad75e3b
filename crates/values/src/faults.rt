// Faults as numbers: those of the conditions, as Checked tells them, of which the smallest is told. So they are numbers, and no enum.
ghost use Rattle.std.specs.Prelude.{◌≡◌};
ghost use Rattle.schema.specs.Faults.{sooner as soonerOf};

// The smaller of two faults; 0 is none.
pub fn sooner(a: u8, b: u8) -> u8
    ensures { result ≡ soonerOf a b }
{
    if a == 0 {
        return b;
    }
    if b == 0 {
        return a;
    }
    if b < a {
        return b;
    }
    a
}
