// Commands on the tables beside a book, and on books alone: it is read into the tables, written from them in either form, moved to a form, and
// the injections come from meters. Each answers how many bytes of the stream it took, and `None` where it is bad. What it answers is written to a printer,
// once its call is made: where a write fails the spaces are as the command leaves them, and it answers with that error.
// `rest` begins with the command's letter, so it isn't empty; without it every place here would be one less than docs/TRIAL.md counts it. A book that is
// written stands at the start of a space, with how many bytes it has beside it, since `WriteRun`
// promises of the whole space.
#![tactic(auto)]

ghost use Rattle.std.specs.Prelude.{◌≡◌, false, ℕ, ◌+◌, ◌*◌, ◌<◌, ◌≤◌, length, replicate, Some, None, IfOk, OnErr, IfSome, IfNone};
ghost use Rattle.rows.specs.Row.{headed};
ghost use Rattle.meters.specs.Promise.{Metered};
ghost use Rattle.spaces.specs.InsideStream.{four_at};
ghost use Rattle.tables.specs.Inside.{taken, ReadRun, WriteAsked, write_good, WriteRun, MoveRun, ListsAsked, registers_in, meters_size, MetersRun};

use answer::Answer;
use layout::Form;
use line::{answer_line, hex_line, list_line, list_line_in};
use rows::two;
use spaces::{four, number_at};
use std::io;

// The book, read into the parts of the tables that a command names.
fn read(rest: &[u8], book: &[u8], injections: &mut [i32], branches: &mut [u32]) -> Option<Answer>
    requires { 0 < length rest.now }
    ensures { ReadRun rest.now book.now injections.old injections.new branches.old branches.new (taken 5 result) }
{
    let buses = number_at(rest, 1, injections.len())?;
    let numbers = number_at(rest, 3, branches.len())?;
    Some(book::read_book(book, &mut injections[..buses], &mut branches[..numbers]))
}

// The injections are few: `list_line` would clear nearly five times as many bytes for each line of them.
fn injections_line<R: Print>(rt: &R, injections: &[i32]) -> io::Result<()>
    requires { length injections.now ≤ 256 }
{
    let mut out = [0u8; 5643];
    list_line_in(rt, &mut out, b"injections", injections)?;
    Ok(())
}

// `R`.
pub fn run_read<R: Print>(
    rt: &R,
    rest: &[u8],
    book: &[u8],
    injections: &mut [i32],
    branches: &mut [u32],
) -> io::Result<Option<usize>>
    requires { (0 < length rest.now) × (length injections.old ≤ 256) × (length branches.old ≤ 1280) }
    ensures read_run { IfOk result (λ r. ReadRun rest.now book.now injections.old injections.new branches.old branches.new r) }
    ensures upper_bound { IfOk result (λ r. IfSome r (λ n. n ≤ length rest.now)) }
    ensures err { OnErr result (ReadRun rest.now book.now injections.old injections.new branches.old branches.new (Some 5)) }
{
    let Some(answer) = read(rest, book, injections, branches) else {
        return Ok(None);
    };
    answer_line(rt, b"read", answer)?;
    injections_line(rt, injections)?;
    list_line(rt, b"branches", branches)?;
    Ok(Some(5))
}

// The numbers of `W` and `X`: what stands in the head of the book, and how much of each space is lent.
#[derive(Clone, Copy)]
struct Writing {
    buses: usize,
    count: usize,
    factor: u32,
    injections: usize,
    branches: usize,
    room: usize,
}

fn writing_of(rest: &[u8], injections: usize, branches: usize, book: usize) -> Option<Writing>
    requires { 0 < length rest.now }
    ensures some { IfSome result (λ w. WriteAsked rest.now injections branches book w) }
    ensures none { IfNone result (write_good rest.now injections branches book ≡ false) }
{
    let buses = number_at(rest, 1, 65535)?;
    let count = number_at(rest, 3, 65535)?;
    let factor = number_at(rest, 5, 65535)?;
    let injections = number_at(rest, 7, injections)?;
    let branches = number_at(rest, 9, branches)?;
    let room = number_at(rest, 11, book)?;
    Some(Writing {
        buses,
        count,
        // A cast: std has no `From` for it, and the proof shows that it fits.
        factor: factor as u32,
        injections,
        branches,
        room,
    })
}

// A book of lent tables, written into the first bytes of the space: accepted, the book has the written length.
fn write(
    form: Form,
    rest: &[u8],
    book: &mut [u8],
    bytes: &mut usize,
    injections: &[i32],
    branches: &[u32],
) -> Option<Answer>
    requires { (0 < length rest.now) × (bytes.old ≤ length book.old) }
    ensures { WriteRun form rest.now injections.now branches.now book.old bytes.old book.new bytes.new (taken 13 result) }
{
    let asked = writing_of(rest, injections.len(), branches.len(), book.len())?;
    let answer = pack::write_book(
        form,
        asked.buses,
        asked.count,
        asked.factor,
        &injections[..asked.injections],
        &branches[..asked.branches],
        &mut book[..asked.room],
    );
    if answer.is_ok() {
        *bytes = layout::bytes_for(form, asked.buses, asked.count);
    }
    Some(answer)
}

// `W` writes the old form, `X` the new one.
pub fn run_write<R: Print>(
    rt: &R,
    form: Form,
    rest: &[u8],
    book: &mut [u8],
    bytes: &mut usize,
    injections: &[i32],
    branches: &[u32],
) -> io::Result<Option<usize>>
    requires { (0 < length rest.now) × (bytes.old ≤ length book.old) }
    ensures write_run { IfOk result (λ r. WriteRun form rest.now injections.now branches.now book.old bytes.old book.new bytes.new r) }
    ensures upper_bound { IfOk result (λ r. IfSome r (λ n. n ≤ length rest.now)) }
    ensures within { bytes.new ≤ length book.new }
    ensures err { OnErr result (WriteRun form rest.now injections.now branches.now book.old bytes.old book.new bytes.new (Some 13)) }
{
    let Some(answer) = write(form, rest, book, bytes, injections, branches) else {
        return Ok(None);
    };
    answer_line(rt, b"write", answer)?;
    Ok(Some(13))
}

// The book, moved into the part of the shelf that a command names.
fn shelve(rest: &[u8], book: &[u8], shelf: &mut [u8]) -> Option<Answer>
    ensures { MoveRun rest.now book.now shelf.old shelf.new (taken 4 result) }
{
    let form = *rest.get(1)?;
    if 1 < form {
        return None;
    }
    let room = number_at(rest, 2, shelf.len())?;
    Some(forms::move_book(book, Form::from(u32::from(form)), &mut shelf[..room]))
}

// `L`.
pub fn run_move<R: Print>(
    rt: &R,
    rest: &[u8],
    book: &[u8],
    shelf: &mut [u8],
) -> io::Result<Option<usize>>
    requires { length shelf.old ≤ 2100 }
    ensures move_run { IfOk result (λ r. MoveRun rest.now book.now shelf.old shelf.new r) }
    ensures upper_bound { IfOk result (λ r. IfSome r (λ n. n ≤ length rest.now)) }
    ensures err { OnErr result (MoveRun rest.now book.now shelf.old shelf.new (Some 4)) }
{
    let Some(answer) = shelve(rest, book, shelf) else {
        return Ok(None);
    };
    answer_line(rt, b"moved", answer)?;
    let mut out = [0u8; 4207];
    hex_line(rt, &mut out, b"shelf", None, shelf)?;
    Ok(Some(4))
}

// Where the four lists of `M` end among its readings.
#[derive(Clone, Copy)]
struct Lists {
    first: usize,
    second: usize,
    third: usize,
    fourth: usize,
}

fn lists_of(rest: &[u8]) -> Lists
    requires { 5 ≤ length rest.now }
    ensures { ListsAsked rest.now result }
{
    let first = usize::from(rest[1]);
    let second = first + usize::from(rest[2]);
    let third = second + usize::from(rest[3]);
    let fourth = third + usize::from(rest[4]);
    Lists {
        first,
        second,
        third,
        fourth,
    }
}

fn readings_of(rest: &[u8], count: usize) -> [u32; 1020]
    requires { (count ≤ 1020) × (7 + 4 * count ≤ length rest.now) }
    ensures { result ≡ headed count (λ i. four_at rest.now (7 + 4 * i)) (replicate 1020 0) }
{
    let mut readings = [0u32; 1020];
    // By its index, which names the place of its four bytes too.
    for i in 0..count {
        readings[i] = four(rest, 7 + 4 * i);
    }
    readings
}

// The lists stand one after another.
fn meter(rest: &[u8], lists: Lists, supply: usize, injections: &mut [i32]) -> Answer
    requires { ListsAsked rest.now lists × (7 + 4 * lists.fourth ≤ length rest.now) }
    ensures { Metered (registers_in rest.now supply) injections.old injections.new result }
{
    let readings = readings_of(rest, lists.fourth);
    let all = &readings[..];
    meters::injections(
        &all[0..lists.first],
        &all[lists.first..lists.second],
        &all[lists.second..lists.third],
        &all[lists.third..lists.fourth],
        supply,
        injections,
    )
}

// The injections from the registers of a command, in the part of their space that it names; and how many bytes the command has.
fn read_meters(rest: &[u8], injections: &mut [i32]) -> Option<(usize, Answer)>
    ensures meters_run { MetersRun rest.now injections.old injections.new (taken (meters_size rest.now) result) }
    ensures size { IfSome result (λ p. (p.0 ≡ meters_size rest.now) × (p.0 ≤ length rest.now)) }
{
    if rest.len() < 7 {
        return None;
    }
    let lists = lists_of(rest);
    let lent = usize::from(rest[5]);
    let size = 7 + 4 * lists.fourth;
    if injections.len() < lent || rest.len() < size {
        return None;
    }
    let answer = meter(rest, lists, usize::from(rest[6]), &mut injections[..lent]);
    Some((size, answer))
}

// `M`.
pub fn run_meters<R: Print>(
    rt: &R,
    rest: &[u8],
    injections: &mut [i32],
) -> io::Result<Option<usize>>
    requires { length injections.old ≤ 256 }
    ensures meters_run { IfOk result (λ r. MetersRun rest.now injections.old injections.new r) }
    ensures upper_bound { IfOk result (λ r. IfSome r (λ n. n ≤ length rest.now)) }
    ensures err { OnErr result (MetersRun rest.now injections.old injections.new (Some (meters_size rest.now))) }
{
    let Some((size, answer)) = read_meters(rest, injections) else {
        return Ok(None);
    };
    answer_line(rt, b"meters", answer)?;
    injections_line(rt, injections)?;
    Ok(Some(size))
}
