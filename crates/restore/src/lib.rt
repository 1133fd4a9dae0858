// Bringing a branch back into service: the flow stays, and every record that didn't show its branch as carrying is written anew.
#![tactic(auto)]

ghost use Rattle.std.specs.Prelude.{◌≡◌, ◌*◌, ◌<◌, ◌≤◌, length};
ghost use Rattle.state.specs.Call.{lent};
ghost use Rattle.state.specs.Inside.{Listing};
ghost use Rattle.restore.specs.Inside.{anew_if, anew_at};
ghost use Rattle.restore.specs.Promise.{back_check, BackEnds};

use answer::{Answer, Refusal};
use search::Latent;
use state::Survey;

// Written anew: the branch itself, or by its record as it was lent.
fn is_anew(rec: &[u8], branch: usize, k: usize) -> bool
    requires { length rec.now ≡ 52 }
    ensures { result ≡ anew_if rec.now branch k }
{
    k == branch || !record::carries(rec)
}

// The bits of the records to be written anew, from the table as it was lent.
fn anew(table: &[u8], branches: usize, branch: usize) -> [u8; 32]
    requires { (branches ≤ 256) × (52 * branches ≤ length table.now) }
    ensures { Listing branches (anew_at table.now branch) result }
{
    bits::marked(branches, |k| is_anew(record::stretch(table, k), branch, k))
}

// Refusals 21 and 1 to 9, then 17.
fn check(percent: u32, book: &[u8], flows: usize, bytes: usize, branch: usize) -> Answer
    ensures { result ≡ back_check percent book.now flows bytes branch }
{
    if switch::check(percent, book, flows, bytes, branch, 1)? {
        return Err(Refusal::AlreadyIn);
    }
    Ok(())
}

// Refusals 21, 1 to 9, 17 and 11; accepted, one status bit is set, and the records that aren't carrying are written anew.
// A branch without flow has its whole limit left in each direction. The flow is tested by the normal limits, and losses are judged by the second.
// What is lent stays apart, as C hands it on.
pub fn bring_back(
    percent: u32,
    book: &mut [u8],
    flow: &[i32],
    table: &mut [u8],
    branch: usize,
) -> Answer
    ensures { BackEnds percent branch (lent book.old flow.now table.old) (lent book.new flow.now table.new) result }
{
    check(percent, book, flow.len(), table.len(), branch)?;
    let Survey {
        wires,
        served,
        loss,
        live,
        brief,
        latent,
    } = state::survey_lent(percent, book, flow);
    let latent = latent.ok_or(Refusal::FlowUnfit)?;
    let kw = loss[branch].0;
    let Latent { ahead, back } = state::raise(wires.branches, live, brief, latent);
    let served = switch::with(served, branch, true);
    let briefs = switch::with(brief, branch, kw);
    let left = Latent {
        ahead: switch::with(ahead, branch, kw),
        back: switch::with(back, branch, kw),
    };
    let listed = anew(table, wires.branches, branch);
    state::rewrite(table, wires, served, briefs, left, listed);
    layout::set_status(book, branch, 1);
    Ok(())
}
