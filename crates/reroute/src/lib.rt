// Surplus that is left at some buses is moved to deficits at others, route by route, over the latent capacities of a network.
// From that follow three verdicts: on a network as it is, after the loss of one branch, and after one bus brings more and another less.
// What is public here serves the crates above alone, which meet what it requires.
#![tactic(auto)]

ghost use Rattle.reroute.specs.InsideMoves.{total, Reroutable, Reroutes};
ghost use Rattle.reroute.specs.InsideVerdicts.{Basic, Based, Losable, Lost, Deliverable, Delivered};
ghost use Rattle.reroute.specs.Inside.{role_of, Roles, Movable, Moves, Summable, Judged, Opened, cut_at, rest_between};
ghost use Rattle.std.specs.Prelude.{◌<◌, ◌≤◌, ◌≡◌};

use search::{Latent, Search, Wires, Work};

// What is left at each bus.
#[derive(Clone, Copy)]
pub struct Rest {
    pub surplus: [u32; 128],
    pub deficit: [u32; 128],
}

// `left` is the whole surplus left, and `group` the smallest group with that excess. No Option: `Reroutes`
// promises `left` and the group either way.
#[derive(Clone, Copy)]
pub struct Moved {
    pub latent: Latent,
    pub rest: Rest,
    pub group: [u8; 16],
    pub left: u32,
}

// By how much a network is short, and the smallest group with that excess.
#[derive(Clone, Copy)]
pub struct Shortfall {
    pub excess: u32,
    pub group: [u8; 16],
}

// What is latent then; the network carries where nothing is short.
#[derive(Clone, Copy)]
pub struct Judgement {
    pub latent: Latent,
    pub short: Option<Shortfall>,
}

// The byte that a search takes: 1 for a start, 2 for a goal.
fn role(surplus: u32, deficit: u32) -> u8
    ensures { result ≡ role_of surplus deficit }
{
    if surplus > 0 {
        1
    } else if deficit > 0 {
        2
    } else {
        0
    }
}

fn roles(buses: usize, rest: Rest) -> [u8; 128]
    requires { buses ≤ 128 }
    ensures { Roles buses rest result }
{
    let mut row = [0u8; 128];
    for v in 0..buses {
        row[v] = role(rest.surplus[v], rest.deficit[v]);
    }
    row
}

fn sum(buses: usize, row: [u32; 128]) -> u32
    requires { Summable buses row }
    ensures { result ≡ total buses row }
{
    row[..buses].iter().sum()
}

// Moves x along the way that the marks lead back from the goal: each branch loses it one way and gains it the other.
// A `loop`, since a mark says where it ends, and the steps are counted for the proof that it does.
fn shift(wires: Wires, marks: [u16; 128], mut latent: Latent, goal: usize, x: u32) -> Latent
    requires { Movable wires marks latent goal x }
    ensures { Moves wires marks latent goal x result }
{
    let mut at = goal;
    let mut steps: usize = 0;
    loop {
        let mark = usize::from(marks[at]);
        if mark == 1 {
            return latent;
        }
        let k = mark - 2;
        let near = usize::from(wires.first[k]);
        let far = usize::from(wires.second[k]);
        let p = latent.ahead[k];
        let q = latent.back[k];
        if far == at {
            latent.ahead[k] = p - x;
            latent.back[k] = q + x;
            at = near;
        } else {
            latent.ahead[k] = p + x;
            latent.back[k] = q - x;
            at = far;
        }
        steps += 1;
    }
}

// Moves surplus to deficits until none is left or no route is.
pub fn reroute(wires: Wires, mut latent: Latent, mut rest: Rest) -> Moved
    requires { Reroutable wires latent rest }
    ensures { Reroutes wires latent rest result }
{
    let mut row = roles(wires.buses, rest);
    let mut left = sum(wires.buses, rest.surplus);
    // No `for`: each turn says how much is left.
    while left > 0 {
        let work = Work {
            marks: [0u16; 128],
            queue: [0u8; 128],
            latent,
        };
        let found = search::explore(wires, work, row);
        latent = found.work.latent;
        let Search::Route(goal, room, start) = found.answer else {
            let group = found.group;
            return Moved {
                latent,
                rest,
                group,
                left,
            };
        };
        let s = rest.surplus[start];
        let t = rest.deficit[goal];
        let x = room.min(s).min(t);
        latent = shift(wires, found.work.marks, latent, goal, x);
        rest.surplus[start] = s - x;
        rest.deficit[goal] = t - x;
        row[start] = role(s - x, 0);
        row[goal] = role(0, t - x);
        left -= x;
    }
    Moved {
        latent,
        rest,
        group: [0u8; 16],
        left,
    }
}

fn judge(moved: Moved) -> Judgement
    ensures { Judged moved result }
{
    let latent = moved.latent;
    let excess = moved.left;
    let group = moved.group;
    let short = if excess == 0 {
        None
    } else {
        Some(Shortfall { excess, group })
    };
    Judgement { latent, short }
}

// A flow that the network carries, or by how much it is short, and the smallest group that is short by so much.
pub fn base_flow(wires: Wires, limit: [u32; 256], gain: [u32; 128], load: [u32; 128]) -> Judgement
    requires { Basic wires limit gain load }
    ensures { Based wires limit gain load result }
{
    let latent = Latent {
        ahead: limit,
        back: limit,
    };
    let rest = Rest {
        surplus: gain,
        deficit: load,
    };
    judge(reroute(wires, latent, rest))
}

// The flow of a lost branch is left as a surplus where it entered and as a deficit where it went.
pub fn rest_of(wires: Wires, limit: [u32; 256], latent: Latent, lost: usize) -> Rest
    requires { Losable wires limit latent lost }
    ensures { Opened wires limit latent lost result }
{
    let near = usize::from(wires.first[lost]);
    let far = usize::from(wires.second[lost]);
    let l = limit[lost];
    let p = latent.ahead[lost];
    let mut surplus = [0u32; 128];
    let mut deficit = [0u32; 128];
    if p < l {
        surplus[near] = l - p;
        deficit[far] = l - p;
    } else {
        surplus[far] = p - l;
        deficit[near] = p - l;
    }
    Rest { surplus, deficit }
}

// Nothing goes over a lost branch any more, in neither direction.
pub fn without(mut latent: Latent, lost: usize) -> Latent
    requires { lost < 256 }
    ensures { result ≡ cut_at latent lost }
{
    latent.ahead[lost] = 0;
    latent.back[lost] = 0;
    latent
}

// The same as for the base flow, after one branch of a flow is lost. Compiled into its callers, which else copied all rows to it.
#[inline(always)]
pub fn loss(wires: Wires, limit: [u32; 256], latent: Latent, lost: usize) -> Judgement
    requires { Losable wires limit latent lost }
    ensures { Lost wires limit latent lost result }
{
    let rest = rest_of(wires, limit, latent, lost);
    judge(reroute(wires, without(latent, lost), rest))
}

// x left at one bus, and wanted at another.
pub fn between(start: usize, goal: usize, x: u32) -> Rest
    requires { (start < 128) × (goal < 128) }
    ensures { result ≡ rest_between start goal x }
{
    let mut surplus = [0u32; 128];
    let mut deficit = [0u32; 128];
    surplus[start] = x;
    deficit[goal] = x;
    Rest { surplus, deficit }
}

// The same as for the base flow, after one bus of a flow brings x more and another x less.
pub fn deliver(wires: Wires, latent: Latent, start: usize, goal: usize, x: u32) -> Judgement
    requires { Deliverable wires latent start goal x }
    ensures { Delivered wires latent start goal x result }
{
    judge(reroute(wires, latent, between(start, goal, x)))
}
