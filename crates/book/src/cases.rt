// The rows of the case that an accepted book makes at a percentage of nameplate.
ghost use Rattle.std.specs.Prelude.{◌≡◌, ◌≤◌};
ghost use Rattle.answer.specs.Answer.{Accepted};
ghost use Rattle.layout.specs.Layout.{book_of};
ghost use Rattle.layout.specs.Inside.{HeadRead, Small};
ghost use Rattle.layout.specs.Check.{check_of};
ghost use Rattle.book.specs.Inside.{GainsRead, BranchesRead, RowsRead};

use crate::injection_at;
use layout::Head;
use quantity::Kw;

// The numbers of a case, a row of fixed length for each, as document 01 hands them on: what the base
// flow keeps to, and what a loss is judged by. A branch in service may have limit 0, so
// `served` stands apart.
#[derive(Clone, Copy)]
pub struct CaseRows {
    pub buses: usize,
    pub branches: usize,
    pub first: [u8; 256],
    pub second: [u8; 256],
    pub served: [bool; 256],
    pub limit: [Kw; 256],
    pub loss: [Kw; 256],
    pub gain: [u32; 128],
    pub load: [u32; 128],
}

#[derive(Clone, Copy)]
struct BusRows {
    pub gain: [u32; 128],
    pub load: [u32; 128],
}

// What enters and what leaves at each bus.
fn bus_rows(book: &[u8], buses: usize) -> BusRows
    requires { buses ≤ 128 }
    ensures { GainsRead book.now buses result }
{
    let mut gain = [0u32; 128];
    let mut load = [0u32; 128];
    for k in 0..buses {
        let x = injection_at(book, k);
        gain[k] = quantity::above(x);
        load[k] = quantity::below(x);
    }
    BusRows { gain, load }
}

#[derive(Clone, Copy)]
struct BranchRows {
    pub first: [u8; 256],
    pub second: [u8; 256],
    pub served: [bool; 256],
    pub limit: [Kw; 256],
    pub loss: [Kw; 256],
}

// The ends, the service and the limits in kW of each branch at a percentage of nameplate: what it can carry, and for a short time, after the loss of
// another. Its ratings leave their kVA here alone.
fn branch_rows(percent: u32, book: &[u8], h: Head) -> BranchRows
    requires { Small h × (h.factor ≤ 1000) × (percent ≤ 100) }
    ensures { BranchesRead percent book.now h result }
{
    let mut first = [0u8; 256];
    let mut second = [0u8; 256];
    let mut served = [false; 256];
    let mut limit = [Kw(0); 256];
    let mut loss = [Kw(0); 256];
    for k in 0..h.branches {
        let x = layout::branch_at(book, h.form, h.buses, k);
        // A cast: std has no `From` that narrows, and the proof shows that it fits.
        first[k] = x.first as u8;
        second[k] = x.second as u8;
        served[k] = x.status == 1;
        limit[k] = quantity::limit(x.kva, h.factor, percent);
        loss[k] = quantity::limit(x.kva2, h.factor, percent);
    }
    BranchRows {
        first,
        second,
        served,
        limit,
        loss,
    }
}

// The rows of an accepted book whose header is read.
pub fn rows_with(percent: u32, book: &[u8], h: Head) -> CaseRows
    requires { HeadRead book.now h × (check_of book.now ≡ Accepted) × (percent ≤ 100) }
    ensures { RowsRead percent (book_of book.now) result }
{
    let BusRows { gain, load } = bus_rows(book, h.buses);
    let BranchRows {
        first,
        second,
        served,
        limit,
        loss,
    } = branch_rows(percent, book, h);
    CaseRows {
        buses: h.buses,
        branches: h.branches,
        first,
        second,
        served,
        limit,
        loss,
        gain,
        load,
    }
}

// The rows of an accepted book.
pub fn rows_of(percent: u32, book: &[u8]) -> CaseRows
    requires { (check_of book.now ≡ Accepted) × (percent ≤ 100) }
    ensures { RowsRead percent (book_of book.now) result }
{
    rows_with(percent, book, layout::head_of(book))
}
