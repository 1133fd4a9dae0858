// The packed book written: the tables beside it are checked, and packed.
#![tactic(auto)]

ghost use Rattle.std.specs.Prelude.{◌≡◌, ◌+◌, ◌*◌, ◌<◌, ◌≤◌, pos, ◌-ℤ◌, length};
ghost use Rattle.answer.specs.Answer.{Accepted, Nowhere};
ghost use Rattle.bits.specs.Fields.{put_items};
ghost use Rattle.layout.specs.Fault.{first_fault};
ghost use Rattle.layout.specs.Form.{branch_widths, fields, branch_values};
ghost use Rattle.layout.specs.Layout.{bus_widths, bus_start, branch_start, bytes_for, bus_values, encode};
ghost use Rattle.layout.specs.Inside.{bus_from};
ghost use Rattle.layout.specs.Check.{balances};
ghost use Rattle.pack.specs.Write.{entry, row_at, book_from, entry_fault, row_fault, write_check, BookWritten};

use answer::{Answer, Place, Refusal};
use layout::{Branch, Bus, Form, Head};
use quantity::Kva;

// The tables beside a book, the form asked for, and what the header says of them.
#[derive(Clone, Copy)]
struct Tables<'a> {
    form: Form,
    buses: usize,
    count: usize,
    factor: u32,
    injections: &'a [i32],
    branches: &'a [u32],
}

// A bus at which so much enters and so much leaves.
pub fn net_bus(enters: u32, leaves: u32) -> Bus
    ensures { result ≡ bus_from (bus_values (pos enters -ℤ pos leaves)) }
{
    Bus {
        sign: quantity::sign_of(enters, leaves),
        size: quantity::apart(enters, leaves),
    }
}

// The sign and size of an injection.
fn bus_of(x: i32) -> Bus
    ensures { result ≡ bus_from (bus_values x) }
{
    net_bus(quantity::above(x), quantity::below(x))
}

impl Tables<'_> {
    fn first_entry_fault(self) -> Option<Place>
        requires { self.buses ≤ length self.injections.now }
        ensures { result ≡ first_fault (entry_fault self.entry.injections.now) self.entry.buses }
    {
        layout::first_fault(
            self.buses,
            |k| layout::bus_fault(bus_of(self.injections[k])),
        )
    }

    // Branch k of the table. The second kVA is the number before the status: in the old form that is the first.
    fn row_at(self, k: usize) -> Branch
        requires { (k < 256) × (fields self.form * k + fields self.form ≤ length self.branches.now) }
        ensures { result ≡ row_at self.entry.form self.entry.branches.now k }
    {
        let at = layout::numbers(self.form, k);
        let last = at + (layout::fields(self.form) - 1);
        Branch {
            first: self.branches[at],
            second: self.branches[at + 1],
            kva: Kva(self.branches[at + 2]),
            kva2: Kva(self.branches[last - 1]),
            status: self.branches[last],
        }
    }

    fn first_row_fault(self) -> Option<Place>
        requires { (self.count ≤ 256) × (fields self.form * self.count ≤ length self.branches.now) }
        ensures { result ≡ first_fault (row_fault self.entry.form self.entry.buses self.entry.branches.now) self.entry.count }
    {
        layout::first_fault(self.count, |k| {
            layout::branch_fault(self.form, self.buses, self.row_at(k))
        })
    }

    // What enters is what leaves, of injections without fault.
    fn is_balanced(self) -> bool
        requires { (self.buses ≤ 128) × (self.buses ≤ length self.injections.now) × (first_fault (entry_fault self.injections.now) self.buses ≡ Nowhere) }
        ensures { result ≡ balances self.entry.buses (entry self.entry.injections.now) }
    {
        layout::is_balanced(
            self.buses,
            |k| -> i32
                requires { k < length self.injections.now }
                ensures { result ≡ entry self.entry.injections.now k }
            { self.injections[k] },
        )
    }

    // The writer's refusals, for so many bytes of output.
    #[tactic(auto, unfolding(crate::specs::Write::write_check))]
    fn check(self, room: usize) -> Answer
        ensures { result ≡ write_check self.entry.form self.entry.buses self.entry.count self.entry.factor self.entry.injections.now self.entry.branches.now room }
    {
        if layout::is_outside(self.buses, self.count, self.factor) {
            return Err(Refusal::CountsOutside);
        }
        if self.injections.len() < self.buses
            || self.branches.len() < layout::numbers(self.form, self.count)
        {
            return Err(Refusal::TooShort);
        }
        if let Some(place) = self.first_entry_fault() {
            return Err(Refusal::BusWrong(place));
        }
        if let Some(place) = self.first_row_fault() {
            return Err(Refusal::BranchWrong(place));
        }
        if !self.is_balanced() {
            return Err(Refusal::NotBalanced);
        }
        if room < layout::bytes_for(self.form, self.buses, self.count) {
            return Err(Refusal::TooShort);
        }
        Ok(())
    }

    fn put_buses(self, out: &mut [u8])
        requires { (self.buses ≤ 128) × (self.buses ≤ length self.injections.now) }
        ensures { out.new ≡ put_items bus_widths out.old bus_start (λ k. bus_values (entry self.entry.injections.now k)) self.entry.buses }
    {
        for k in 0..self.buses {
            layout::put_bus(out, k, bus_of(self.injections[k]));
        }
    }

    fn put_branches(self, out: &mut [u8])
        requires { (self.buses ≤ 128) × (self.count ≤ 256) × (fields self.form * self.count ≤ length self.branches.now) }
        ensures { out.new ≡ put_items (branch_widths self.entry.form) out.old (branch_start self.entry.buses) (λ k. branch_values self.entry.form (row_at self.entry.form self.entry.branches.now k)) self.entry.count }
    {
        for k in 0..self.count {
            layout::put_branch(out, self.form, self.buses, k, self.row_at(k));
        }
    }

    // The book of accepted tables, into a row of exactly its length.
    fn pack_into(self, out: &mut [u8])
        requires { (length out.old ≡ bytes_for self.form self.buses self.count) × (write_check self.form self.buses self.count self.factor self.injections.now self.branches.now (length out.old) ≡ Accepted) }
        ensures { out.new ≡ encode (book_from self.entry.form self.entry.buses self.entry.count self.entry.factor self.entry.injections.now self.entry.branches.now) }
    {
        out.fill(0);
        let h = Head {
            form: self.form,
            buses: self.buses,
            branches: self.count,
            factor: self.factor,
            spare: 0,
        };
        layout::put_head(out, h);
        self.put_buses(out);
        self.put_branches(out);
    }
}

// The tables' book in the form asked for, into lent bytes: refusals 2, 8, 4, 5, 7, 8.
pub fn write_book(
    form: Form,
    buses: usize,
    count: usize,
    factor: u32,
    injections: &[i32],
    branches: &[u32],
    out: &mut [u8],
) -> Answer
    ensures { BookWritten form buses count factor injections.now branches.now out.old out.new result }
{
    let tables = Tables {
        form,
        buses,
        count,
        factor,
        injections,
        branches,
    };
    tables.check(out.len())?;
    let end = layout::bytes_for(form, buses, count);
    tables.pack_into(&mut out[..end]);
    Ok(())
}
