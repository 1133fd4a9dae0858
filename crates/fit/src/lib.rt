// Whether a lent flow fits: each number against its limit, and at each bus what comes against what goes.
// What is public here serves the crates above alone, which meet what it requires.
#![tactic(auto)]

ghost use Rattle.std.specs.Prelude.{◌≡◌, ◌≤◌, length, eqb};
ghost use Rattle.rows.specs.Row.{nth, every};
ghost use Rattle.fit.specs.Inside.{Lendable, Measurable, Measured, Talliable, Tallied, Fitted};

use search::{Latent, Wires};

// The latent capacities that a lent flow leaves, if it keeps to the limits.
fn latents(flow: &[i32], branches: usize, live: [u32; 256]) -> Option<Latent>
    requires { Measurable branches live (length flow.now) }
    ensures { Measured branches flow.now live result }
{
    let mut ahead = [0u32; 256];
    let mut back = [0u32; 256];
    for k in 0..branches {
        let up = quantity::above(flow[k]);
        let down = quantity::below(flow[k]);
        let limit = live[k];
        if limit < up || limit < down {
            return None;
        }
        ahead[k] = limit + down - up;
        back[k] = limit + up - down;
    }
    Some(Latent { ahead, back })
}

// What each bus had, with x of every branch at its one end and y at its other.
fn tally(
    branches: usize,
    one: [u8; 256],
    x: [u32; 256],
    other: [u8; 256],
    y: [u32; 256],
    mut sums: [u32; 128],
) -> [u32; 128]
    requires { Talliable branches one x other y sums }
    ensures { Tallied branches one x other y sums result }
{
    for k in 0..branches {
        sums[usize::from(one[k])] += x[k];
        sums[usize::from(other[k])] += y[k];
    }
    sums
}

// The latent capacities that a lent flow leaves, if it fits. Counted as if every branch carried its limit ahead and its latent capacity back: the
// difference is its flow.
pub fn test(
    flow: &[i32],
    wires: Wires,
    live: [u32; 256],
    gain: [u32; 128],
    load: [u32; 128],
) -> Option<Latent>
    requires { Lendable wires live gain load (length flow.now) }
    ensures { Fitted wires flow.now live gain load result }
{
    let latent = latents(flow, wires.branches, live)?;
    let n = wires.branches;
    let comes = tally(n, wires.second, live, wires.first, latent.ahead, gain);
    let goes = tally(n, wires.first, live, wires.second, latent.ahead, load);
    (comes[..wires.buses] == goes[..wires.buses]).then_some(latent)
}
