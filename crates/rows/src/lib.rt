// What every crate above wants: rows, sums over a group, bits.
#![tactic(auto)]

ghost use Rattle.std.specs.Prelude.{◌≡◌, ◌+◌, ◌<◌, ◌≤◌, length};
ghost use Rattle.rows.specs.Row.{two_at};

// A number of two bytes, the high byte first.
pub fn two(row: &[u8], at: usize) -> usize
    requires { at + 2 ≤ length row.now }
    ensures { (result ≡ two_at row.now at) × (result < 65536) }
{
    usize::from(u16::from_be_bytes([row[at], row[at + 1]]))
}
