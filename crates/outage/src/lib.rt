// Taking a branch out of service: the flow is rerouted, and the records on the shortlist are written anew.
#![tactic(auto)]

ghost use Rattle.std.specs.Prelude.{◌≡◌, ◌<◌, ◌≤◌};
ghost use Rattle.state.specs.Call.{lent};
ghost use Rattle.outage.specs.Inside.{Marked, taken};
ghost use Rattle.outage.specs.Promise.{take_check, TakeEnds, TakeCounted};

use answer::{Answer, Refusal};
use state::Survey;

// The bits of the branches whose flow changed, and of the branch taken out.
fn touch(branches: usize, before: [u32; 256], after: [u32; 256], branch: usize) -> [u8; 32]
    requires { (branches ≤ 256) × (branch < branches) }
    ensures { Marked branches before after branch result }
{
    let mut row = state::changed(branches, before, after, branch);
    bits::set_bit(&mut row, branch, 1);
    row
}

// An answer, and how many losses were judged for it: none for a refusal. No Option: `TakeCounted` has the number of a refusal too.
#[derive(Clone, Copy)]
pub struct Taken {
    pub answer: Answer,
    pub judged: usize,
}

// Refusals 21 and 1 to 9, then 10.
fn check(percent: u32, book: &[u8], flows: usize, bytes: usize, branch: usize) -> Answer
    ensures { result ≡ take_check percent book.now flows bytes branch }
{
    if switch::check(percent, book, flows, bytes, branch, 0)? {
        return Err(Refusal::AlreadyOut);
    }
    Ok(())
}

// Accepted, one status bit is cleared, the flow is rerouted within the normal limits, and the shortlist is written anew: so many losses were judged.
fn lose(
    percent: u32,
    book: &mut [u8],
    flow: &mut [i32],
    table: &mut [u8],
    branch: usize,
) -> Result<usize, Refusal>
    ensures { TakeCounted percent branch (lent book.old flow.old table.old) (lent book.new flow.new table.new) (taken result) }
{
    check(percent, book, flow.len(), table.len(), branch)?;
    let Survey {
        wires,
        served,
        live,
        brief,
        latent,
        ..
    } = state::survey_lent(percent, book, flow);
    let latent = latent.ok_or(Refusal::FlowUnfit)?;
    let named = record::reroute_of(record::stretch(table, branch));
    let judged = replace::replace(wires, live, latent, named, branch);
    if let Some(lack) = judged.short {
        return Err(state::overloaded(lack));
    }
    let left = judged.latent;
    let touched = touch(wires.branches, latent.ahead, left.ahead, branch);
    let served = switch::with(served, branch, false);
    let limits = switch::with(live, branch, 0);
    let briefs = switch::with(brief, branch, 0);
    let listed = shortlist::shortlist(table, wires.branches, served, touched);
    state::fill_flow(flow, wires.branches, limits, left.ahead);
    let raised = state::raise(wires.branches, limits, briefs, left);
    let losses = state::rewrite(table, wires, served, briefs, raised, listed);
    layout::set_status(book, branch, 0);
    Ok(losses)
}

// Refusals 21 and 1 to 12, or the branch is out. The losses judged on the way are counted.
// What is lent stays apart, as C hands it on.
pub fn take_out_counted(
    percent: u32,
    book: &mut [u8],
    flow: &mut [i32],
    table: &mut [u8],
    branch: usize,
) -> Taken
    ensures { TakeCounted percent branch (lent book.old flow.old table.old) (lent book.new flow.new table.new) result }
{
    match lose(percent, book, flow, table, branch) {
        Ok(judged) => Taken {
            answer: Ok(()),
            judged,
        },
        Err(why) => Taken {
            answer: Err(why),
            judged: 0,
        },
    }
}

pub fn take_out(
    percent: u32,
    book: &mut [u8],
    flow: &mut [i32],
    table: &mut [u8],
    branch: usize,
) -> Answer
    ensures { TakeEnds percent branch (lent book.old flow.old table.old) (lent book.new flow.new table.new) result }
{
    take_out_counted(percent, book, flow, table, branch).answer
}
