// The layout of a packed book in its two forms: header, buses and branches, each read and put beside each other, and which field is at fault.
#![tactic(auto)]

ghost use Rattle.std.specs.Prelude.{◌≡◌, ℕ, ℤ, [], ◌∷◌, ◌≤◌, ◌<◌};
ghost use Rattle.layout.specs.Book.{size};
ghost use Rattle.layout.specs.Fault.{bus_fault, branch_fault, field_at, first_fault};
ghost use Rattle.bits.specs.Field.{set_bit};
ghost use Rattle.bits.specs.Fields.{place, puts};
ghost use Rattle.layout.specs.Form.{in_new, form_of, form_bit, branch_widths, branch_values};
ghost use Rattle.layout.specs.Layout.{head_widths, bus_widths, bus_start, status_bit, bits_for, bytes_for};
ghost use Rattle.layout.specs.Layout.{bus_at, branch_after};
ghost use Rattle.rows.specs.Inside.{Asked, Tells};
ghost use Rattle.layout.specs.Inside.{CountedIn, HeadRead, Numbered, Numbers, Wide, Placed, Small, head_fields, bus_from, bus_fields};
ghost use Rattle.layout.specs.Check.{outside, balances};

use answer::Place;
use quantity::Kva;

// A branch of a new book has a second kVA, after the first. Neither form is the absence of the other.
#[derive(Clone, Copy, Debug, PartialEq, Eq)]
pub enum Form {
    Old,
    New,
}

// The form of a layout bit: 1 is new, and any other number asks for the old one.
impl From<u32> for Form {
    ghost from_gives = { λ bit form. form ≡ form_of bit };

    fn from(bit: u32) -> Form {
        if bit == 1 { Form::New } else { Form::Old }
    }
}

impl From<Form> for u32 {
    ghost from_gives = { λ form bit. bit ≡ form_bit form };

    fn from(form: Form) -> u32 {
        match form {
            Form::Old => 0,
            Form::New => 1,
        }
    }
}

// The form, the counts, the power factor and the fill bits of a book.
#[derive(Clone, Copy)]
pub struct Head {
    pub form: Form,
    pub buses: usize,
    pub branches: usize,
    pub factor: u32,
    pub spare: u32,
}

// A bus as the book has it: sign 1 is negative. A number, as its bit is: `put_bus` promises of any.
#[derive(Clone, Copy)]
pub struct Bus {
    pub sign: u32,
    pub size: u32,
}

// A branch as the book and the table beside it have it: status 1 is in service. A number, since a table may hold any and its check names it. In an old book
// both figures are the same.
#[derive(Clone, Copy)]
pub struct Branch {
    pub first: u32,
    pub second: u32,
    pub kva: Kva,
    pub kva2: Kva,
    pub status: u32,
}

// The field of a bus that is at fault.
#[tactic(auto, unfolding(crate::specs::Fault::bus_fault))]
pub fn bus_fault(x: Bus) -> Option<u8>
    ensures { result ≡ field_at (bus_fault x.sign x.size) }
{
    if 1000000 < x.size {
        return Some(2);
    }
    (x.sign == 1 && x.size == 0).then_some(2)
}

// How many numbers a branch has.
pub fn fields(form: Form) -> usize
    ensures { Numbered form result }
{
    match form {
        Form::Old => 4,
        Form::New => 5,
    }
}

// How many so many branches have.
pub fn numbers(form: Form, branches: usize) -> usize
    requires { branches ≤ 256 }
    ensures { Numbers form branches result }
{
    fields(form) * branches
}

// The field of a branch that is at fault.
#[tactic(auto, using(crate::proofs::Forms::last_field), unfolding(crate::specs::Fault::branch_fault))]
pub fn branch_fault(form: Form, buses: usize, x: Branch) -> Option<u8>
    ensures { result ≡ field_at (branch_fault form buses x) }
{
    // A cast, here and below: std has no `From` for it, and the proof shows that it fits.
    if buses <= x.first as usize {
        return Some(1);
    }
    if buses <= x.second as usize {
        return Some(2);
    }
    if x.first == x.second {
        return Some(2);
    }
    if 1000000 < x.kva.0 {
        return Some(3);
    }
    if x.kva2.0 < x.kva.0 {
        return Some(4);
    }
    if 1000000 < x.kva2.0 {
        return Some(4);
    }
    if 1 < x.status {
        return Some(fields(form) as u8);
    }
    None
}

// The place of the first of so many items that is at fault, where `fault` tells the field of each.
pub fn first_fault<F: Fn(usize) -> Option<u8>>(count: usize, fault: F) -> Option<Place>
    requires { Asked count (F.pre fault) }
    ensures { (f : ℕ → ℕ) → Tells count (F.post fault) (λ k. field_at (f k)) → result ≡ first_fault f count }
{
    for k in 0..count {
        if let Some(field) = fault(k) {
            return Some(Place { item: k, field });
        }
    }
    None
}

// A count or the power factor is outside its range.
pub fn is_outside(buses: usize, branches: usize, factor: u32) -> bool
    ensures { result ≡ outside buses branches factor }
{
    !(1..=128).contains(&buses) || 256 < branches || !(1..=1000).contains(&factor)
}

// What enters and what leaves over some buses.
#[derive(Clone, Copy)]
pub struct Sums {
    pub enters: u32,
    pub leaves: u32,
}

// One injection more.
pub fn count_in(s: Sums, x: i32) -> Sums
    requires { (s.enters ≤ 134217728) × (s.leaves ≤ 134217728) × (size x ≤ 1048576) }
    ensures { CountedIn s x result }
{
    Sums {
        enters: s.enters + quantity::above(x),
        leaves: s.leaves + quantity::below(x),
    }
}

// What enters at so many buses is what leaves.
pub fn is_balanced<F: Fn(usize) -> i32>(buses: usize, injection: F) -> bool
    requires few { buses ≤ 128 }
    requires asked { Asked buses (F.pre injection) }
    requires small { (k : ℕ) → k < buses → (x : ℤ) → F.post injection k x → size x ≤ 1048576 }
    ensures { (h : ℕ → ℤ) → Tells buses (F.post injection) h → result ≡ balances buses h }
{
    let mut sums = Sums {
        enters: 0,
        leaves: 0,
    };
    for k in 0..buses {
        sums = count_in(sums, injection(k));
    }
    sums.enters == sums.leaves
}

// The first bit of bus k.
pub fn bus_place(k: usize) -> usize
    requires { k ≤ 128 }
    ensures { result ≡ place bus_widths bus_start k }
{
    32 + 21 * k
}

// How many bits a branch has.
fn width(form: Form) -> usize
    ensures { Wide form result }
{
    match form {
        Form::Old => 35,
        Form::New => 55,
    }
}

// The first bit of branch k after so many buses.
pub fn branch_place(form: Form, buses: usize, k: usize) -> usize
    requires { (buses ≤ 255) × (k ≤ 256) }
    ensures { Placed form buses k result }
{
    32 + 21 * buses + width(form) * k
}

// The exact length of a book.
pub fn bytes_for(form: Form, buses: usize, branches: usize) -> usize
    requires { (buses ≤ 128) × (branches ≤ 256) }
    ensures { result ≡ bytes_for form buses branches }
{
    (branch_place(form, buses, branches) + 7) / 8
}

// The header, read and put.
pub fn head_of(book: &[u8]) -> Head
    ensures { HeadRead book.now result }
{
    Head {
        form: Form::from(bits::field(book, 27, 1)),
        buses: bits::field(book, 0, 8) as usize,
        branches: bits::field(book, 8, 9) as usize,
        factor: bits::field(book, 17, 10),
        spare: bits::field(book, 28, 4),
    }
}

pub fn put_head(out: &mut [u8], h: Head)
    requires { Small h }
    ensures { out.new ≡ puts out.old 0 head_widths (head_fields h) }
{
    bits::put(out, 0, 8, h.buses as u32);
    bits::put(out, 8, 9, h.branches as u32);
    bits::put(out, 17, 10, h.factor);
    bits::put(out, 27, 1, u32::from(h.form));
    bits::put(out, 28, 4, h.spare);
}

// Bus k, read and put.
pub fn bus_at(book: &[u8], k: usize) -> Bus
    requires { k ≤ 128 }
    ensures { result ≡ bus_from (bus_at book.now k) }
{
    let at = bus_place(k);
    Bus {
        sign: bits::field(book, at, 1),
        size: bits::field(book, at + 1, 20),
    }
}

pub fn put_bus(out: &mut [u8], k: usize, x: Bus)
    requires { k ≤ 128 }
    ensures { out.new ≡ puts out.old (place bus_widths bus_start k) bus_widths (bus_fields x) }
{
    let at = bus_place(k);
    bits::put(out, at, 1, x.sign);
    bits::put(out, at + 1, 20, x.size);
}

// Branch k after so many buses, read and put. The second kVA is the last field but the status: in an old book that is the first.
// No head is asked for: the form and the number of buses are all that these two need.
pub fn branch_at(book: &[u8], form: Form, buses: usize, k: usize) -> Branch
    requires { (buses ≤ 128) × (k ≤ 256) }
    ensures { result ≡ branch_after form buses book.now k }
{
    let at = branch_place(form, buses, k);
    let rated = at + 14;
    let last = at + (width(form) - 1);
    let rated2 = last - 20;
    let kva = Kva(bits::field(book, rated, 20));
    let kva2 = Kva(bits::field(book, rated2, 20));
    Branch {
        first: bits::field(book, at, 7),
        second: bits::field(book, at + 7, 7),
        kva,
        kva2,
        status: bits::field(book, last, 1),
    }
}

// What follows a branch's first kVA: in a new book the second, then the status.
fn put_last(out: &mut [u8], at: usize, form: Form, kva2: Kva, status: u32)
    requires { at ≤ 20100 }
    ensures { out.new ≡ puts out.old at (in_new form 20 (1 ∷ [])) (in_new form kva2.0 (status ∷ [])) }
{
    let Form::New = form else {
        bits::put(out, at, 1, status);
        return;
    };
    bits::put(out, at, 20, kva2.0);
    bits::put(out, at + 20, 1, status);
}

pub fn put_branch(out: &mut [u8], form: Form, buses: usize, k: usize, x: Branch)
    requires { (buses ≤ 128) × (k ≤ 256) }
    ensures { out.new ≡ puts out.old (bits_for form buses k) (branch_widths form) (branch_values form x) }
{
    let at = branch_place(form, buses, k);
    bits::put(out, at, 7, x.first);
    bits::put(out, at + 7, 7, x.second);
    bits::put(out, at + 14, 20, x.kva.0);
    let kva2 = x.kva2;
    put_last(out, at + 34, form, kva2, x.status);
}

// Branch k's status bit, and no other, is made 0 or 1: its place is the form's.
pub fn set_status(book: &mut [u8], k: usize, status: u8)
    requires { (k ≤ 256) × (status < 2) }
    ensures { book.new ≡ set_bit book.old (status_bit book.old k) status }
{
    let h = head_of(book);
    let form = h.form;
    let at = branch_place(form, h.buses, k);
    bits::set_bit(book, at + (width(form) - 1), status);
}
