// The screen of a whole book: a base flow, and the record of every branch's loss.
#![tactic(auto)]

ghost use Rattle.state.specs.Call.{lent};
ghost use Rattle.screen.specs.Promise.{ScreenEnds};

use answer::Answer;
use state::Plan;

// Refusals 21, 1 to 8 and 12; accepted, a flow within the normal limits, and the record of every branch's loss, judged by the second.
// What is lent stays apart, as C hands it on.
pub fn screen(percent: u32, book: &[u8], flow: &mut [i32], table: &mut [u8]) -> Answer
    ensures { ScreenEnds percent (lent book.now flow.old table.old) (lent book.now flow.new table.new) result }
{
    state::check_lent(percent, book, flow.len(), table.len())?;
    let Plan {
        wires,
        served,
        live,
        brief,
        gain,
        load,
    } = state::prepare(book::rows_of(percent, book));
    let base = reroute::base_flow(wires, live, gain, load);
    if let Some(lack) = base.short {
        return Err(state::overloaded(lack));
    }
    let latent = base.latent;
    state::fill_flow(flow, wires.branches, live, latent.ahead);
    let raised = state::raise(wires.branches, live, brief, latent);
    state::rewrite(table, wires, served, brief, raised, [255u8; 32]);
    Ok(())
}
