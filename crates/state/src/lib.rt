// What every call on a lent book shares: the checks before it, the rows of its case, and records written from them.
// What is public here serves the calls alone, which meet what it requires.
#![tactic(auto)]

ghost use Rattle.std.specs.Prelude.{◌≡◌, ℕ, ◌+◌, ◌*◌, ◌<◌, ◌≤◌, ℤ, pos, ◌-ℤ◌, length};
ghost use Rattle.rows.specs.Row.{nth, headed};
ghost use Rattle.rows.specs.Bit.{has};
ghost use Rattle.rows.specs.Sum.{pick};
ghost use Rattle.answer.specs.declared.Refusal.TheVariants.{Overloaded};
ghost use Rattle.verdict.specs.Case.{Case};
ghost use Rattle.verdict.specs.Excess.{Short};
ghost use Rattle.verdict.specs.Island.{ShortNumber};
ghost use Rattle.verdict.specs.Record.{TrueRecord};
ghost use Rattle.state.specs.Call.{lent_check};
ghost use Rattle.state.specs.Inside.{State, Poised, Changed, Live, Plannable, Planned, Surveyable, Surveyed, RowRaisable, RowRaised, Raisable, Raised};
ghost use Rattle.search.specs.declared.Latent.{Latent};
ghost use Rattle.state.specs.Inside.{Fillable, Severable, Rewritten};

use answer::{Answer, Refusal};
use book::CaseRows;
use quantity::Kw;
use reroute::Shortfall;
use search::{Latent, Wires};

// Rows of fixed length side by side, each handed on whole, as document 01 has them. The limits in `live` are the normal ones, and those in `brief` what a
// loss is judged by; both are 0 for a branch out of service.
#[derive(Clone, Copy)]
pub struct Plan {
    pub wires: Wires,
    pub served: [bool; 256],
    pub live: [u32; 256],
    pub brief: [u32; 256],
    pub gain: [u32; 128],
    pub load: [u32; 128],
}

// Refusal 21, then 1 to 8, for so many lent flow numbers and table bytes: only lengths, since the lists stay with the call that asks.
pub fn check_lent(percent: u32, book: &[u8], flows: usize, bytes: usize) -> Answer
    ensures { result ≡ lent_check percent book.now flows bytes }
{
    if quantity::percent_out(percent) {
        return Err(Refusal::PercentOutside);
    }
    let h = layout::head_of(book);
    book::check_with(book, h)?;
    if flows < h.branches || bytes < 52 * h.branches {
        return Err(Refusal::TooShort);
    }
    Ok(())
}

// Refusal 12, of what is short.
pub fn overloaded(lack: Shortfall) -> Refusal
    ensures { result ≡ Overloaded lack.excess lack.group }
{
    let Shortfall { excess: kw, group } = lack;
    Refusal::Overloaded { kw, group }
}

// The row of capacities: here the limits leave their kW.
fn live_limits(branches: usize, served: [bool; 256], limit: [Kw; 256]) -> [u32; 256]
    requires { branches ≤ 256 }
    ensures { Live branches served limit result }
{
    let mut live = [0u32; 256];
    for k in 0..branches {
        if served[k] {
            live[k] = limit[k].0;
        }
    }
    live
}

pub fn prepare(rows: CaseRows) -> Plan
    requires { Plannable rows }
    ensures { Planned rows result }
{
    let CaseRows {
        buses,
        branches,
        first,
        second,
        served,
        limit,
        loss,
        gain,
        load,
    } = rows;
    Plan {
        wires: search::link(buses, branches, first, second),
        served,
        live: live_limits(branches, served, limit),
        brief: live_limits(branches, served, loss),
        gain,
        load,
    }
}

// A lent book and flow: the rows of the book, and the latent capacities that the flow leaves of the normal limits, if it fits.
#[derive(Clone, Copy)]
pub struct Survey {
    pub wires: Wires,
    pub served: [bool; 256],
    pub loss: [Kw; 256],
    pub live: [u32; 256],
    pub brief: [u32; 256],
    pub latent: Option<Latent>,
}

pub fn survey_lent(percent: u32, book: &[u8], flow: &[i32]) -> Survey
    requires { Surveyable percent book.now (length flow.now) }
    ensures { Surveyed percent book.now flow.now result }
{
    let rows = book::rows_of(percent, book);
    let loss = rows.loss;
    let Plan {
        wires,
        served,
        live,
        brief,
        gain,
        load,
    } = prepare(rows);
    let latent = fit::test(flow, wires, live, gain, load);
    Survey {
        wires,
        served,
        loss,
        live,
        brief,
        latent,
    }
}

fn raised_row(branches: usize, live: [u32; 256], brief: [u32; 256], row: [u32; 256]) -> [u32; 256]
    requires { RowRaisable branches live brief row }
    ensures { RowRaised branches live brief row result }
{
    let mut raised = row;
    for k in 0..branches {
        raised[k] = row[k] + (brief[k] - live[k]);
    }
    raised
}

// What the same flow leaves of the limits that a loss is judged by: more, by as much as these are higher.
pub fn raise(branches: usize, live: [u32; 256], brief: [u32; 256], latent: Latent) -> Latent
    requires { Raisable branches live brief latent }
    ensures { Raised branches live brief latent result }
{
    let before = latent.ahead;
    let behind = latent.back;
    let ahead = raised_row(branches, live, brief, before);
    let back = raised_row(branches, live, brief, behind);
    Latent { ahead, back }
}

// The signed flow that latent capacities leave.
pub fn fill_flow(flow: &mut [i32], branches: usize, live: [u32; 256], ahead: [u32; 256])
    requires { Fillable branches live ahead (length flow.old) }
    ensures { flow.new ≡ headed branches (λ k. pos (nth live k) -ℤ pos (nth ahead k)) flow.old }
{
    for k in 0..branches {
        flow[k] = quantity::difference(live[k], ahead[k]);
    }
}

// The bits of the branches, other than one, on which two rows differ.
pub fn changed(branches: usize, before: [u32; 256], after: [u32; 256], but: usize) -> [u8; 32]
    requires { branches ≤ 256 }
    ensures { Changed branches before after but result }
{
    bits::marked(branches, |k| k != but && before[k] != after[k])
}

// The verdict of a branch k that is short by its whole flow. If no other branch in service leaves the group, its loss would island; only otherwise a
// search decides, over branches in service whatever their limits.
fn short_number(
    wires: Wires,
    served: [bool; 256],
    live: [u32; 256],
    k: usize,
    group: [u8; 16],
) -> u8
    requires { Severable wires live k }
    ensures { (C : Case) (f : ℕ → ℤ) (l : Latent) (v : ℕ) → State C f wires served live l → Short C k v (has group) → ShortNumber C k result }
{
    if !island::leaves(wires, served, k, group) {
        return 3;
    }
    let ways = live_limits(wires.branches, served, [Kw(1); 256]);
    if island::joined(wires, ways, k) {
        return 2;
    }
    3
}

// The record of branch k, on its stretch: out of service; without flow, spared as it stands; or judged by its loss.
// Network, service, limits and latent capacities come apart, here and in `reroute`: limits are a plan's normal or second ones, and latent capacities those of
// a flow or raised, so a struct of them would be put together for each call.
pub fn put_verdict(
    rec: &mut [u8],
    wires: Wires,
    served: [bool; 256],
    live: [u32; 256],
    latent: Latent,
    k: usize,
)
    requires { Poised wires served live latent × (k < wires.branches) × (length rec.old ≡ 52) }
    ensures { (C : Case) (f : ℕ → ℤ) → State C f wires served live latent → TrueRecord C f k rec.new }
{
    if !served[k] {
        record::write(rec, 0, 0, [0u8; 16], [0u8; 32]);
        return;
    }
    if latent.ahead[k] == live[k] {
        record::write(rec, 1, 0, [0u8; 16], [0u8; 32]);
        return;
    }
    let judged = reroute::loss(wires, live, latent, k);
    let Some(short) = judged.short else {
        let left = judged.latent;
        let reroute = changed(wires.branches, latent.ahead, left.ahead, k);
        record::write(rec, 1, 0, [0u8; 16], reroute);
        return;
    };
    // If its loss would island, it is short by its whole flow. The number is the byte that
    // `record::write` takes.
    let mut number: u8 = 2;
    if short.excess == quantity::apart(live[k], latent.ahead[k]) {
        number = short_number(wires, served, live, k, short.group);
    }
    record::write(rec, number, short.excess, short.group, [0u8; 32]);
}

fn counted(judged: usize, more: bool) -> usize
    requires { judged < 256 }
    ensures { result ≡ judged + pick more 1 }
{
    judged + usize::from(more)
}

// The records whose bit is listed are written anew; the answer is how many losses were judged for them.
pub fn rewrite(
    table: &mut [u8],
    wires: Wires,
    served: [bool; 256],
    live: [u32; 256],
    latent: Latent,
    listed: [u8; 32],
) -> usize
    requires { Poised wires served live latent × (52 * wires.branches ≤ length table.old) }
    ensures { (C : Case) (f : ℕ → ℤ) → State C f wires served live latent → Rewritten C f served listed table.old table.new result }
{
    let mut judged: usize = 0;
    for k in 0..wires.branches {
        if bits::is_set(&listed, k) {
            let a = 52 * k;
            let e = a + 52;
            put_verdict(&mut table[a..e], wires, served, live, latent, k);
            judged = counted(judged, served[k]);
        }
    }
    judged
}
