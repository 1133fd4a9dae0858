// Which buses open branches join, whatever their limits.
// A branch is open where its number in the row `ways` is above 0. What is public here serves the crates above alone, which meet what it requires.
#![tactic(auto)]

ghost use Rattle.std.specs.Prelude.{◌≡◌, ◌<◌};
ghost use Rattle.rows.specs.Row.{nth, some};
ghost use Rattle.search.specs.InsideLinks.{Linked};
ghost use Rattle.island.specs.Inside.{Openable, Apart, Leading, Joining, leaves_at};

use search::{Latent, Wires};

// Whether open branches lead from one bus to another: exactly if nothing stays of one unit that is left at the first and wanted at the second.
pub fn leads(wires: Wires, ways: [u32; 256], start: usize, goal: usize) -> bool
    requires { Openable wires ways × Apart wires start goal }
    ensures { Leading wires ways start goal result }
{
    let latent = Latent {
        ahead: ways,
        back: ways,
    };
    let moved = reroute::reroute(wires, latent, reroute::between(start, goal, 1));
    moved.left == 0
}

// Whether open branches other than k join its ends.
pub fn joined(wires: Wires, mut ways: [u32; 256], k: usize) -> bool
    requires { Openable wires ways × (k < wires.branches) × Apart wires (nth wires.first k) (nth wires.second k) }
    ensures { Joining wires ways k result }
{
    ways[k] = 0;
    leads(
        wires,
        ways,
        usize::from(wires.first[k]),
        usize::from(wires.second[k]),
    )
}

// Whether branch j is in service, isn't k, and has exactly one end in the group.
#[tactic(auto, unfolding(crate::specs::Inside::leaves_at))]
fn departs(wires: &Wires, served: &[bool; 256], k: usize, group: &[u8; 16], j: usize) -> bool
    requires { Linked wires.now × (j < wires.now.branches) }
    ensures { result ≡ leaves_at wires.now served.now k group.now j }
{
    if !served[j] || j == k {
        return false;
    }
    bits::is_set(group, usize::from(wires.first[j]))
        != bits::is_set(group, usize::from(wires.second[j]))
}

// Whether a branch in service other than k has exactly one end in the group.
pub fn leaves(wires: Wires, served: [bool; 256], k: usize, group: [u8; 16]) -> bool
    requires { Linked wires }
    ensures { result ≡ some wires.branches (leaves_at wires served k group) }
{
    (0..wires.branches).any(|j| departs(&wires, &served, k, &group, j))
}
