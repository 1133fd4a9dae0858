// Document 01's program: reads a book from standard input and lists what each branch's loss would do. It fails where a read or a write does.
#![tactic(auto)]

use line::read_full;
use std::io;

// One byte more than the largest book: a longer input is refused as its first bytes require.
fn main(rt: HostRuntime) -> io::Result<()> {
    let mut input = [0u8; 2101];
    let mut stdin = rt.stdin();
    let n = read_full(&mut stdin, &mut input)?;
    printing::print_list(&rt, &input[..n])?;
    Ok(())
}
