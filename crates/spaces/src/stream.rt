// Numbers of the stream: the high byte first.
ghost use Rattle.std.specs.Prelude.{◌≡◌, ◌+◌, ◌≤◌, ◌<◌, length};
ghost use Rattle.spaces.specs.InsideStream.{four_at};

use rows::two;

pub fn four(rest: &[u8], at: usize) -> u32
    requires { at + 4 ≤ length rest.now }
    ensures { result ≡ four_at rest.now at }
{
    u32::from_be_bytes([rest[at], rest[at + 1], rest[at + 2], rest[at + 3]])
}
