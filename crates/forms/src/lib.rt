// A packed book moved to the form asked for: the new one has a second rating a branch, the old one has one.
#![tactic(auto)]

ghost use Rattle.std.specs.Prelude.{◌≡◌, length};
ghost use Rattle.rows.specs.Row.{some};
ghost use Rattle.bits.specs.Fields.{put_items};
ghost use Rattle.layout.specs.Book.{in_form};
ghost use Rattle.layout.specs.Form.{branch_widths, branch_values};
ghost use Rattle.layout.specs.Layout.{bus_widths, bus_start, branch_start, bus_at, branch_after, book_of, encode};
ghost use Rattle.layout.specs.Inside.{HeadRead, Small};
ghost use Rattle.forms.specs.Move.{differs, would_lose, move_check, BookMoved};
ghost use Rattle.forms.specs.Inside.{Movable};

use answer::{Answer, Refusal};
use layout::{Form, Head};

// The ratings of some branch differ. No `any`: as a closure this body would have to ask that k is a branch and promise `differs` again.
fn ratings_differ(book: &[u8], h: Head) -> bool
    requires { Small h }
    ensures { result ≡ some h.branches (λ k. differs (branch_after h.form h.buses book.now k)) }
{
    for k in 0..h.branches {
        let x = layout::branch_at(book, h.form, h.buses, k);
        if x.kva.0 != x.kva2.0 {
            return true;
        }
    }
    false
}

// The form asked for has no place for the ratings.
fn would_lose(book: &[u8], h: Head, form: Form) -> bool
    requires { Small h }
    ensures { result ≡ would_lose form (some h.branches (λ k. differs (branch_after h.form h.buses book.now k))) }
{
    form == Form::Old && ratings_differ(book, h)
}

// Refusals 1 to 7 of the book, then 18, then 8, for so many bytes of output.
fn check(book: &[u8], h: Head, form: Form, room: usize) -> Answer
    requires { HeadRead book.now h }
    ensures { result ≡ move_check book.now form room }
{
    book::check_with(book, h)?;
    let short = room < layout::bytes_for(form, h.buses, h.branches);
    if would_lose(book, h, form) {
        return Err(Refusal::RatingsLost);
    }
    if short {
        return Err(Refusal::TooShort);
    }
    Ok(())
}

fn move_buses(out: &mut [u8], book: &[u8], h: Head)
    requires { Small h }
    ensures { out.new ≡ put_items bus_widths out.old bus_start (bus_at book.now) h.buses }
{
    for k in 0..h.buses {
        layout::put_bus(out, k, layout::bus_at(book, k));
    }
}

fn move_branches(out: &mut [u8], book: &[u8], h: Head, form: Form)
    requires { Small h }
    ensures { out.new ≡ put_items (branch_widths form) out.old (branch_start h.buses) (λ k. branch_values form (branch_after h.form h.buses book.now k)) h.branches }
{
    let count = h.branches;
    for k in 0..count {
        let x = layout::branch_at(book, h.form, h.buses, k);
        layout::put_branch(out, form, h.buses, k, x);
    }
}

// An accepted book, into a row of exactly its length in the form asked for.
fn move_into(out: &mut [u8], book: &[u8], h: Head, form: Form)
    requires { Movable book.now h form (length out.old) }
    ensures { out.new ≡ encode (in_form form (book_of book.now)) }
{
    let moved = Head {
        form,
        spare: 0,
        ..h
    };
    out.fill(0);
    layout::put_head(out, moved);
    move_buses(out, book, h);
    move_branches(out, book, h, form);
}

// The book in the form asked for, into lent bytes: refusals 1 to 7, 18, 8.
pub fn move_book(book: &[u8], form: Form, out: &mut [u8]) -> Answer
    ensures { BookMoved book.now form out.old out.new result }
{
    let h = layout::head_of(book);
    check(book, h, form, out.len())?;
    let end = layout::bytes_for(form, h.buses, h.branches);
    move_into(&mut out[..end], book, h, form);
    Ok(())
}
