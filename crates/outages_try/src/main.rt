// Runs the list of `outages` on several inputs: each has its length in two bytes before it, the high byte first. It fails where a read or a write does.
#![tactic(auto)]

use line::read_full;
use std::io;

fn main(rt: HostRuntime) -> io::Result<()> {
    let mut input = [0u8; 16384];
    let mut stdin = rt.stdin();
    let n = read_full(&mut stdin, &mut input)?;
    let mut rest = &input[..n];
    while let Some((size, after)) = rest.split_first_chunk::<2>() {
        let size = usize::from(u16::from_be_bytes(*size));
        let Some((book, others)) = after.split_at_checked(size) else {
            return Ok(());
        };
        printing::print_list(&rt, book)?;
        rest = others;
    }
    Ok(())
}
