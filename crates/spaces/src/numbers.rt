// The numbers of a command, each held to the most that it may be before anything is lent.
ghost use Rattle.std.specs.Prelude.{◌≡◌, false, ◌≤◌, length, IfSome, IfNone};
ghost use Rattle.spaces.specs.InsideNumbers.{good, Asked};

use rows::two;

// The number of two bytes at a place of a command: `None` where the letter stands, where the stream ends inside it, and where it is above `most`.
pub fn number_at(rest: &[u8], at: usize, most: usize) -> Option<usize>
    requires { at ≤ length rest.now }
    ensures some { IfSome result (λ n. Asked rest.now at most n) }
    ensures none { IfNone result (good rest.now at most ≡ false) }
{
    // As `good` has it, the letter's place holds no number.
    if at == 0 || rest.len() - at < 2 {
        return None;
    }
    let value = two(rest, at);
    if most < value {
        return None;
    }
    Some(value)
}
