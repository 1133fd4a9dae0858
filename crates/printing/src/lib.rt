// Document 01's list of a book, written to a printer, as standard output: each line is built whole (`lines`), with room for a newline, and written at
// once. A call whose write fails writes no more, and answers with that error.
#![tactic(auto)]

ghost use Rattle.std.specs.Prelude.{◌≡◌, ◌+◌, ◌*◌, ◌≤◌, length, IfOk, Err};
ghost use Rattle.printing.specs.Lines.{head_text, branch_text, refused_text};
ghost use Rattle.printing.specs.List.{accepted_text, Printed};
ghost use Rattle.printing.specs.Inside.{Handed, Listable};

mod lines;

use answer::{Answer, Refusal};
use line::Line;
use lines::{put_branch, put_head, put_refused};
use std::io;

// The answer that a list was made from, and how many bytes the list has.
#[derive(Clone, Copy)]
pub struct Printout {
    pub answer: Answer,
    pub length: usize,
}

// One function a line, each with room for its own longest text: with the builder lent as a closure that room and its promise would be parameters too.
fn print_head<R: Print>(rt: &R, book: &[u8]) -> io::Result<usize>
    ensures { IfOk result (λ n. Handed (head_text book.now) 42 n) }
{
    let mut bytes = [0u8; 42];
    let mut line = Line {
        bytes: &mut bytes,
        len: 0,
    };
    put_head(&mut line, book);
    line.write(rt)
}

fn print_branch<R: Print>(rt: &R, table: &[u8], k: usize) -> io::Result<usize>
    requires { 52 * k + 52 ≤ length table.now }
    ensures { IfOk result (λ n. Handed (branch_text table.now k) 2759 n) }
{
    let mut bytes = [0u8; 2759];
    let mut line = Line {
        bytes: &mut bytes,
        len: 0,
    };
    put_branch(&mut line, table, k);
    line.write(rt)
}

fn print_refused<R: Print>(rt: &R, why: Refusal) -> io::Result<usize>
    ensures { IfOk result (λ n. Handed (refused_text (Err why)) 2759 n) }
{
    let mut bytes = [0u8; 2759];
    let mut line = Line {
        bytes: &mut bytes,
        len: 0,
    };
    put_refused(&mut line, Err(why));
    line.write(rt)
}

// The list of an accepted book: its head line, then a line for each branch.
fn list<R: Print>(rt: &R, book: &[u8], table: &[u8]) -> io::Result<usize>
    requires { Listable book.now table.now }
    ensures { IfOk result (λ n. n ≡ length (accepted_text book.now table.now)) }
{
    let branches = layout::head_of(book).branches;
    let mut length = print_head(rt, book)?;
    for k in 0..branches {
        length += print_branch(rt, table, k)?;
    }
    Ok(length)
}

// The list of a book, or its refusal in one line.
pub fn print_list<R: Print>(rt: &R, book: &[u8]) -> io::Result<Printout>
    ensures { IfOk result (λ r. Printed book.now r) }
{
    let mut flow = [0i32; 256];
    let mut table = [0u8; 13312];
    let answer = screen::screen(100, book, &mut flow, &mut table);
    let length = match answer {
        Ok(()) => list(rt, book, &table)?,
        Err(why) => print_refused(rt, why)?,
    };
    Ok(Printout { answer, length })
}
