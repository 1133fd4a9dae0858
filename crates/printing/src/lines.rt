// The lines of document 01's list, each added to what a line holds.
ghost use Rattle.std.specs.Prelude.{◌++◌, ◌+◌, ◌*◌, ◌≤◌, length};
ghost use Rattle.line.specs.Inside.{Room, Adds};
ghost use Rattle.printing.specs.Lines.{head_text, short_text, missing_word, branch_text, refused_word, reason_text};

use answer::ToReply;
use line::Line;

// The counts as the book's header has them.
pub fn put_head(line: &mut Line<'_>, book: &[u8])
    requires { Room 41 line.old }
    ensures { Adds (head_text book.now) 41 line.old line.new }
{
    let head = layout::head_of(book);
    // Casts, here and below: std has no `From` from a `usize`.
    line.put_decimal(head.buses as u64);
    line.put_next(head.branches as u64);
}

// Shortage, number of buses in the group, and these in rising order.
fn put_short(line: &mut Line<'_>, shortage: u32, group: [u8; 16])
    requires { Room 2730 line.old }
    ensures { Adds (short_text shortage group) 2730 line.old line.new }
{
    line.put_next(u64::from(shortage));
    line.put_group(group);
}

// The word of a branch that is short, by the byte of a record: any byte may stand there.
fn put_missing(line: &mut Line<'_>, verdict: u8)
    requires { Room 8 line.old }
    ensures { Adds (missing_word verdict) 8 line.old line.new }
{
    match verdict {
        2 => line.put(b" short"),
        _ => line.put(b" islands"),
    }
}

// What the record of branch k shows: its stretch of the table is cut and read here, so that no number of another branch can stand beside it.
pub fn put_branch(line: &mut Line<'_>, table: &[u8], k: usize)
    requires { Room 2758 line.old × (52 * k + 52 ≤ length table.now) }
    ensures { Adds (branch_text table.now k) 2758 line.old line.new }
{
    let entry = record::read(record::stretch(table, k));
    line.put_decimal(k as u64);
    match entry.verdict {
        0 => line.put(b" out"),
        1 => line.put(b" carries"),
        verdict => {
            put_missing(line, verdict);
            let group = entry.group;
            put_short(line, entry.shortage, group);
        }
    }
}

// The number of a refusal; for 12 also the shortage and the group, for any other the place where it has one.
pub fn put_refused<A: ToReply>(line: &mut Line<'_>, answer: A)
    requires { Room 2758 line.old }
    ensures { Adds (refused_word ++ reason_text (A.reply answer)) 2758 line.old line.new }
{
    let reply = answer.to_reply();
    line.put(b"refused");
    line.put_next(u64::from(reply.number));
    match reply.number {
        12 => put_short(line, reply.shortage, reply.group),
        _ => line.put_place(reply.place),
    }
}
