// Runs calls from a stream on standard input and writes what they answer: docs/TRIAL.md has the table of its commands. It fails where a read or a write
// does.
#![tactic(auto)]

ghost use Rattle.std.specs.Prelude.{◌-◌, ◌<◌, ◌≤◌, length, Some, IfOk, OnErr, IfSome};
ghost use Rattle.trial.specs.Inside.{Refilled, CommandRun};

mod calls;

use calls::run_call;
use layout::Form;
use line::read_full;
use spaces::{Spaces, set_percent};
use std::io;
use std::io::Read;
use tables::{run_move, run_write};

// What is left of the input, moved to its front, and more after it: how many bytes there are then. Where the read fails what is left stands at the front.
fn refill<R: Read>(reader: &mut R, input: &mut [u8], at: usize, end: usize) -> io::Result<usize>
    requires { (at ≤ end) × (end ≤ length input.old) }
    ensures refilled { IfOk result (λ r. Refilled input.old at end input.new 0 r) }
    ensures err { OnErr result (Refilled input.old at end input.new 0 (end - at)) }
{
    let kept = end - at;
    input.copy_within(at..end, 0);
    let more = read_full(reader, &mut input[kept..])?;
    Ok(kept + more)
}

// Where the rest of the stream stands in the input.
#[derive(Clone, Copy)]
struct Window {
    at: usize,
    end: usize,
}

// No command is longer than 4,087 bytes, so with 4,096 left there is no need to read on.
fn ready<R: Read>(reader: &mut R, input: &mut [u8], at: usize, end: usize) -> io::Result<Window>
    requires { (at ≤ end) × (end ≤ length input.old) }
    ensures refilled { IfOk result (λ r. Refilled input.old at end input.new r.at r.end) }
    ensures err { OnErr result (Refilled input.old at end input.new 0 (end - at)) }
{
    if 4096 <= end - at {
        return Ok(Window { at, end });
    }
    let filled = refill(reader, input, at, end)?;
    Ok(Window { at: 0, end: filled })
}

// One command, at the start of the rest of the stream, which its letter begins.
fn run<R: Print>(rt: &R, rest: &[u8], s: &mut Spaces) -> io::Result<Option<usize>>
    requires { 0 < length rest.now }
    ensures command_run { IfOk result (λ r. CommandRun rest.now s.old s.new r) }
    ensures upper_bound { IfOk result (λ r. IfSome r (λ n. n ≤ length rest.now)) }
    ensures err { OnErr result ((n : _) × CommandRun rest.now s.old s.new (Some n)) }
{
    let letter = rest[0];
    match letter {
        b'P' => {
            s.spoil();
            Ok(Some(1))
        }
        b'B' => Ok(s.set_book(rest)),
        b'W' => run_write(
            rt,
            Form::Old,
            rest,
            &mut s.book,
            &mut s.bytes,
            &s.injections,
            &s.branches,
        ),
        b'X' => run_write(
            rt,
            Form::New,
            rest,
            &mut s.book,
            &mut s.bytes,
            &s.injections,
            &s.branches,
        ),
        b'L' => run_move(rt, rest, &s.book[..s.bytes], &mut s.shelf),
        b'Y' => Ok(set_percent(rest, &mut s.percent)),
        b'F' | b'T' | b'I' | b'N' => Ok(s.set_place(letter, rest)),
        _ => run_call(rt, rest, letter, s),
    }
}

// A proved loop has to end, and nothing says that a stream does: the turns are more than any stream has commands.
fn main(rt: HostRuntime) -> io::Result<()> {
    let mut stdin = rt.stdin();
    let mut input = [0u8; 65536];
    let mut spaces = Spaces::new();
    let mut at: usize = 0;
    let mut end: usize = 0;
    for _ in 0..u64::MAX {
        let window = ready(&mut stdin, &mut input, at, end)?;
        at = window.at;
        end = window.end;
        if at == end {
            return Ok(());
        }
        let Some(taken) = run(&rt, &input[at..end], &mut spaces)? else {
            rt.write_all(b"bad command\n")?;
            return Ok(());
        };
        at += taken;
    }
    Ok(())
}
