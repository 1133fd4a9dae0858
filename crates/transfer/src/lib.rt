// Moving load between two buses: their injections change, power is rerouted between them, and the records on the shortlist are written anew.
#![tactic(auto)]

ghost use Rattle.std.specs.Prelude.{◌≡◌, ◌+◌, ◌≤◌};
ghost use Rattle.state.specs.Call.{lent};
ghost use Rattle.transfer.specs.Inside.{TwoBuses, Shiftable};
ghost use Rattle.transfer.specs.Promise.{leaves_range, transfer_check, shifted_bytes, TransferEnds};

use answer::{Answer, Refusal};
use state::Survey;

// By how much an injection may rise, of which so much lies above 0 and so much below. By how much it may fall, the other way round.
fn room(above: u32, below: u32) -> u32
    requires { (above ≤ 1000000) × (below ≤ 1000000) }
    ensures { result + above ≡ 1000000 + below }
{
    1000000 + below - above
}

// A move of load between two buses: the injection of bus `up` rises by kw, that of bus `down` falls by it.
#[derive(Clone, Copy)]
struct Shift {
    up: usize,
    down: usize,
    kw: u32,
}

impl Shift {
    // Whether an injection would leave its range. Nothing is added to kw, which may be any number.
    fn leaves_range(self, book: &[u8]) -> bool
        requires { TwoBuses book.now self.up self.down }
        ensures { result ≡ leaves_range book.now self.up self.down self.kw }
    {
        let x = book::injection_at(book, self.up);
        if room(quantity::above(x), quantity::below(x)) < self.kw {
            return true;
        }
        let y = book::injection_at(book, self.down);
        room(quantity::below(y), quantity::above(y)) < self.kw
    }

    // Refusals 21 and 1 to 8, then 19 and 20.
    fn check(self, percent: u32, book: &[u8], flows: usize, bytes: usize) -> Answer
        ensures { result ≡ transfer_check percent book.now flows bytes self.up self.down self.kw }
    {
        state::check_lent(percent, book, flows, bytes)?;
        let head = layout::head_of(book);
        if head.buses <= self.up || head.buses <= self.down || self.up == self.down {
            return Err(Refusal::NoTwoBuses);
        }
        if self.leaves_range(book) {
            return Err(Refusal::InjectionOutside);
        }
        Ok(())
    }

    // Both injections are written over where they stand.
    fn put_injections(self, book: &mut [u8])
        requires { Shiftable book.old self.up self.down self.kw }
        ensures { book.new ≡ shifted_bytes book.old self.up self.down self.kw }
    {
        let x = book::injection_at(book, self.up);
        let y = book::injection_at(book, self.down);
        let risen = pack::net_bus(quantity::above(x) + self.kw, quantity::below(x));
        let fallen = pack::net_bus(quantity::above(y), quantity::below(y) + self.kw);
        layout::put_bus(book, self.up, risen);
        layout::put_bus(book, self.down, fallen);
    }
}

// Refusals 21, 1 to 8, 19, 20, 11 and 12; accepted, the injection of bus `up` rises by kw and that of bus `down` falls by it, kw is rerouted from
// the one to the other over what the lent flow leaves of the normal limits, and the shortlist is written anew. No branch is taken out, so the
// touched ones are those whose flow changed, whichever they are.
// What is lent stays apart, as C hands it on.
pub fn move_load(
    percent: u32,
    book: &mut [u8],
    flow: &mut [i32],
    table: &mut [u8],
    up: usize,
    down: usize,
    kw: u32,
) -> Answer
    ensures { TransferEnds percent up down kw (lent book.old flow.old table.old) (lent book.new flow.new table.new) result }
{
    let shift = Shift { up, down, kw };
    shift.check(percent, book, flow.len(), table.len())?;
    let Survey {
        wires,
        served,
        live,
        brief,
        latent,
        ..
    } = state::survey_lent(percent, book, flow);
    let latent = latent.ok_or(Refusal::FlowUnfit)?;
    let judged = reroute::deliver(wires, latent, up, down, kw);
    if let Some(lack) = judged.short {
        return Err(state::overloaded(lack));
    }
    let left = judged.latent;
    let touched = state::changed(wires.branches, latent.ahead, left.ahead, wires.branches);
    let listed = shortlist::shortlist(table, wires.branches, served, touched);
    state::fill_flow(flow, wires.branches, live, left.ahead);
    let raised = state::raise(wires.branches, live, brief, left);
    state::rewrite(table, wires, served, brief, raised, listed);
    shift.put_injections(book);
    Ok(())
}
