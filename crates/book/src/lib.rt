// The packed book: read or refused. The rows that a screen works on: `cases`.
#![tactic(auto)]

ghost use Rattle.std.specs.Prelude.{◌≡◌, ◌*◌, ◌<◌, ◌≤◌, length};
ghost use Rattle.rows.specs.Row.{headed};
ghost use Rattle.layout.specs.Fault.{first_fault};
ghost use Rattle.layout.specs.Form.{fields, branch_values};
ghost use Rattle.layout.specs.Layout.{buses_in, form_in, branch_after, injection_at};
ghost use Rattle.layout.specs.Inside.{HeadRead, Small};
ghost use Rattle.layout.specs.Check.{balances, bus_fault_at, branch_fault_at, head_check, body_check, check_of};
ghost use Rattle.book.specs.Read.{BookRead};
ghost use Rattle.book.specs.Inside.{tabled};

mod cases;

use answer::{Answer, Place, Refusal};
pub use cases::{CaseRows, rows_of, rows_with};
use layout::{Branch, Form, Head};

fn check_head(book: &[u8], h: Head) -> Answer
    requires { HeadRead book.now h }
    ensures { result ≡ head_check book.now }
{
    if book.len() < 4 {
        return Err(Refusal::WrongLength);
    }
    if layout::is_outside(h.buses, h.branches, h.factor) {
        return Err(Refusal::CountsOutside);
    }
    if h.spare != 0 {
        return Err(Refusal::HeaderFill);
    }
    if book.len() != layout::bytes_for(h.form, h.buses, h.branches) {
        return Err(Refusal::WrongLength);
    }
    Ok(())
}

// Bus k's injection.
pub fn injection_at(book: &[u8], k: usize) -> i32
    requires { k ≤ 128 }
    ensures { result ≡ injection_at book.now k }
{
    let x = layout::bus_at(book, k);
    quantity::signed(x.sign == 1, x.size)
}

fn first_bus_fault(book: &[u8], buses: usize) -> Option<Place>
    requires { buses ≤ 128 }
    ensures { result ≡ first_fault (bus_fault_at book.now) buses }
{
    layout::first_fault(buses, |k| layout::bus_fault(layout::bus_at(book, k)))
}

fn first_branch_fault(book: &[u8], h: Head) -> Option<Place>
    requires { HeadRead book.now h × Small h }
    ensures { result ≡ first_fault (branch_fault_at book.now) h.branches }
{
    layout::first_fault(h.branches, |k| {
        layout::branch_fault(h.form, h.buses, layout::branch_at(book, h.form, h.buses, k))
    })
}

// What enters is what leaves.
fn is_balanced(book: &[u8], buses: usize) -> bool
    requires { buses ≤ 128 }
    ensures { result ≡ balances buses (injection_at book.now) }
{
    layout::is_balanced(
        buses,
        |k| -> i32
            requires { k < 128 }
            ensures { result ≡ injection_at book.entry.now k }
        { injection_at(book, k) },
    )
}

// The tests after the header's: 4 to 7.
fn check_body(book: &[u8], h: Head) -> Answer
    requires { HeadRead book.now h × Small h }
    ensures { result ≡ body_check book.now }
{
    if let Some(place) = first_bus_fault(book, h.buses) {
        return Err(Refusal::BusWrong(place));
    }
    if let Some(place) = first_branch_fault(book, h) {
        return Err(Refusal::BranchWrong(place));
    }
    if bits::field(book, layout::branch_place(h.form, h.buses, h.branches), 7) != 0 {
        return Err(Refusal::TailFill);
    }
    if !is_balanced(book, h.buses) {
        return Err(Refusal::NotBalanced);
    }
    Ok(())
}

// Refusals 1 to 7, of a book whose header is read.
pub fn check_with(book: &[u8], h: Head) -> Answer
    requires { HeadRead book.now h }
    ensures { result ≡ check_of book.now }
{
    check_head(book, h)?;
    check_body(book, h)
}

fn fill_injections(book: &[u8], buses: usize, out: &mut [i32])
    requires { (buses ≤ 128) × (buses ≤ length out.old) }
    ensures { out.new ≡ headed buses (injection_at book.now) out.old }
{
    for k in 0..buses {
        out[k] = injection_at(book, k);
    }
}

// The numbers of a branch, on its stretch of the table: in the new form the second kVA after the first.
fn fill_row(row: &mut [u32], form: Form, x: Branch)
    requires { length row.old ≡ fields form }
    ensures { row.new ≡ branch_values form x }
{
    row[0] = x.first;
    row[1] = x.second;
    row[2] = x.kva.0;
    let Form::New = form else {
        row[3] = x.status;
        return;
    };
    row[3] = x.kva2.0;
    row[4] = x.status;
}

fn fill_branches(book: &[u8], h: Head, out: &mut [u32])
    requires { Small h × (fields h.form * h.branches ≤ length out.old) }
    ensures { out.new ≡ tabled h.form h.branches (branch_after h.form h.buses book.now) out.old }
{
    for k in 0..h.branches {
        let x = layout::branch_at(book, h.form, h.buses, k);
        let a = layout::numbers(h.form, k);
        let e = a + layout::fields(h.form);
        fill_row(&mut out[a..e], h.form, x);
    }
}

// The book's injections and the numbers of its branches, four or five by its form, into two lent tables: refusals 1 to 7, then 8.
pub fn read_book(book: &[u8], injections: &mut [i32], branches: &mut [u32]) -> Answer
    ensures { BookRead book.now injections.old injections.new branches.old branches.new result }
{
    let h = layout::head_of(book);
    check_with(book, h)?;
    if injections.len() < h.buses || branches.len() < layout::numbers(h.form, h.branches) {
        return Err(Refusal::TooShort);
    }
    fill_injections(book, h.buses, injections);
    fill_branches(book, h, branches);
    Ok(())
}
