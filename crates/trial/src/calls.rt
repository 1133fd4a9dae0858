// Commands that make a call and write its answer: `S`, `O`, `K` and `V` here, the others in `tables`. The answer is written once the call is made: where a
// write fails the spaces are as the command leaves them, and it answers with that error.
ghost use Rattle.std.specs.Prelude.{◌≡◌, true, ◌<◌, ◌≤◌, length, Some, IfOk, OnErr, IfSome, is_some};
ghost use Rattle.state.specs.Call.{lent};
ghost use Rattle.tables.specs.Inside.{taken};
ghost use Rattle.trial.specs.InsideCalls.{ScreenRun, OutRun, BackRun, TransferRun, CallRun};

use answer::Answer;
use line::{answer_line, hex_line, list_line_in};
use rows::two;
use spaces::{Spaces, four, number_at};
use std::io;
use tables::{run_meters, run_read};

// `S`. It and the next three take the spaces that they lend as slices, since a part of an array in a struct can't be lent as `&mut` out of it; the
// book comes with its length, since what is promised is of whole spaces. `rest` begins
// with the command's letter, so it isn't empty, as docs/TRIAL.md counts its places.
fn run_screen(
    rest: &[u8],
    percent: u32,
    book: &[u8],
    bytes: usize,
    flow: &mut [i32],
    table: &mut [u8],
) -> Option<Answer>
    requires { (0 < length rest.now) × (bytes ≤ length book.now) }
    ensures { ScreenRun percent rest.now bytes (lent book.now flow.old table.old) (lent book.now flow.new table.new) (taken 5 result) }
{
    let flows = number_at(rest, 1, flow.len())?;
    let records = number_at(rest, 3, table.len())?;
    Some(screen::screen(
        percent,
        &book[..bytes],
        &mut flow[..flows],
        &mut table[..records],
    ))
}

// `O`.
fn run_out(
    rest: &[u8],
    percent: u32,
    book: &mut [u8],
    bytes: usize,
    flow: &mut [i32],
    table: &mut [u8],
) -> Option<Answer>
    requires { (0 < length rest.now) × (bytes ≤ length book.old) }
    ensures { OutRun percent rest.now bytes (lent book.old flow.old table.old) (lent book.new flow.new table.new) (taken 7 result) }
{
    let flows = number_at(rest, 1, flow.len())?;
    let records = number_at(rest, 3, table.len())?;
    let k = number_at(rest, 5, 65535)?;
    Some(outage::take_out(
        percent,
        &mut book[..bytes],
        &mut flow[..flows],
        &mut table[..records],
        k,
    ))
}

// `K`.
fn run_back(
    rest: &[u8],
    percent: u32,
    book: &mut [u8],
    bytes: usize,
    flow: &[i32],
    table: &mut [u8],
) -> Option<Answer>
    requires { (0 < length rest.now) × (bytes ≤ length book.old) }
    ensures { BackRun percent rest.now bytes (lent book.old flow.now table.old) (lent book.new flow.now table.new) (taken 7 result) }
{
    let flows = number_at(rest, 1, flow.len())?;
    let records = number_at(rest, 3, table.len())?;
    let k = number_at(rest, 5, 65535)?;
    Some(restore::bring_back(
        percent,
        &mut book[..bytes],
        &flow[..flows],
        &mut table[..records],
        k,
    ))
}

// `V`. Any buses and any kW may be named, so that the stream has only to hold their bytes.
fn run_transfer(
    rest: &[u8],
    percent: u32,
    book: &mut [u8],
    bytes: usize,
    flow: &mut [i32],
    table: &mut [u8],
) -> Option<Answer>
    requires { (0 < length rest.now) × (bytes ≤ length book.old) }
    ensures { TransferRun percent rest.now bytes (lent book.old flow.old table.old) (lent book.new flow.new table.new) (taken 13 result) }
{
    let flows = number_at(rest, 1, flow.len())?;
    let records = number_at(rest, 3, table.len())?;
    if rest.len() < 13 {
        return None;
    }
    Some(transfer::move_load(
        percent,
        &mut book[..bytes],
        &mut flow[..flows],
        &mut table[..records],
        two(rest, 5),
        two(rest, 7),
        four(rest, 9),
    ))
}

// A word and the answer of a call: a bad command, which makes none, writes nothing.
fn tell<R: Print>(
    rt: &R,
    word: &[u8],
    size: usize,
    answer: Option<Answer>,
) -> io::Result<Option<usize>>
    requires { length word.now ≤ 10 }
    ensures took { IfOk result (λ r. r ≡ taken size answer) }
    ensures err { OnErr result (taken size answer ≡ Some size) }
{
    let Some(answer) = answer else {
        return Ok(None);
    };
    answer_line(rt, word, answer)?;
    Ok(Some(size))
}

fn record_line<R: Print>(rt: &R, table: &[u8], k: usize) -> io::Result<()>
    requires { (length table.now ≡ 13312) × (k < 256) }
{
    let mut out = [0u8; 133];
    let start = 52 * k;
    hex_line(rt, &mut out, b"record", Some(k), &table[start..start + 52])?;
    Ok(())
}

// `D`: the book, the flow, and every record of the table.
fn dump<R: Print>(rt: &R, s: &Spaces) -> io::Result<()> {
    // Enough for either line.
    let mut out = [0u8; 5637];
    hex_line(rt, &mut out, b"book", Some(s.bytes), &s.book)?;
    list_line_in(rt, &mut out, b"flow", &s.flow)?;
    for k in 0..256 {
        record_line(rt, &s.table, k)?;
    }
    Ok(())
}

// `S`, `O`, `K`, `V`, `R`, `M` and `D`.
pub fn run_call<R: Print>(
    rt: &R,
    rest: &[u8],
    letter: u8,
    s: &mut Spaces,
) -> io::Result<Option<usize>>
    requires { 0 < length rest.now }
    ensures call_run { IfOk result (λ r. CallRun letter rest.now s.old s.new r) }
    ensures upper_bound { IfOk result (λ r. IfSome r (λ n. n ≤ length rest.now)) }
    ensures err { OnErr result ((n : _) × CallRun letter rest.now s.old s.new (Some n)) }
{
    match letter {
        b'S' => {
            let screened = run_screen(rest, s.percent, &s.book, s.bytes, &mut s.flow, &mut s.table);
            tell(rt, b"screen", 5, screened)
        }
        b'O' => {
            let taken = run_out(
                rest,
                s.percent,
                &mut s.book,
                s.bytes,
                &mut s.flow,
                &mut s.table,
            );
            tell(rt, b"out", 7, taken)
        }
        b'K' => {
            let back = run_back(rest, s.percent, &mut s.book, s.bytes, &s.flow, &mut s.table);
            tell(rt, b"back", 7, back)
        }
        b'V' => {
            let moved = run_transfer(
                rest,
                s.percent,
                &mut s.book,
                s.bytes,
                &mut s.flow,
                &mut s.table,
            );
            tell(rt, b"move", 13, moved)
        }
        b'R' => run_read(
            rt,
            rest,
            &s.book[..s.bytes],
            &mut s.injections,
            &mut s.branches,
        ),
        b'M' => run_meters(rt, rest, &mut s.injections),
        b'D' => {
            dump(rt, s)?;
            Ok(Some(1))
        }
        _ => Ok(None),
    }
}
