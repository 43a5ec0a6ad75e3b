// The layout of a sheet.
ghost use Rattle.std.specs.Prelude.{◌≡◌, ◌≤◌, length};
ghost use Rattle.records.specs.Sheet.{width_of};

// The bytes of a record: 5 where the sheet says so, else 7.
pub(crate) fn width(sheet: &[u8]) -> usize
    requires { 4 ≤ length sheet.now }
    ensures is { result ≡ (width_of sheet.now).bytes }
    ensures few { (5 ≤ result) × (result ≤ 7) }
{
    if sheet[0] == 5 { 5 } else { 7 }
}
