// A breadth-first search over the latent capacities of a network of at most 128 buses and 256 branches.
// What is public here serves the crates above alone, which meet what it requires.
#![tactic(auto)]

ghost use Rattle.search.specs.InsideLinks.{Linkable, Wiring};
ghost use Rattle.search.specs.InsideSearch.{Bits, Searchable, Searched};
ghost use Rattle.search.specs.Inside.{Blank, Seeded, Byte, Packed};
ghost use Rattle.std.specs.Prelude.{◌<◌, ◌≤◌, ◌+◌, ◌≡◌, cond, ltb};

// The ends of the branches, and links that give the branches of a bus in rising number: rows of fixed length side by side and indices, since memory is lent.
// A link is a side: k is branch k met at its first end, 256 + k is branch k met at its second end, 512 is none.
// So the scan finds the next side by one load, and the bus at the other end of a side by another, without a comparison of buses.
#[derive(Clone, Copy)]
pub struct Wires {
    pub buses: usize,
    pub branches: usize,
    pub first: [u8; 256],
    pub second: [u8; 256],
    pub head: [u16; 128],
    pub after: [u16; 512],
    pub far: [u8; 512],
}

// The latent capacity of each branch from its first end to its second, and back: two rows, as document 01 has them, each handed on whole.
#[derive(Clone, Copy)]
pub struct Latent {
    pub ahead: [u32; 256],
    pub back: [u32; 256],
}

// What one search works on: marks, all 0 at first, the queue, and the latent capacities. A mark is 0 for none, 1 for a start, and else the branch that led
// here plus 2: a number and no enum, since the rows hold no more and `byte` asks whether it is above 0.
#[derive(Clone, Copy)]
pub struct Work {
    pub marks: [u16; 128],
    pub queue: [u8; 128],
    pub latent: Latent,
}

// A route is its goal, its smallest latent capacity and its start. No Option: document 01 names both ends of a search, a route or a group.
#[derive(Clone, Copy)]
pub enum Search {
    Route(usize, u32, usize),
    Group,
}

// The group's bits stand beside the answer, as document 01 has it: 16 zeros beside a route, which `RouteOrGroup` promises.
#[derive(Clone, Copy)]
pub struct Found {
    pub answer: Search,
    pub taken: usize,
    pub group: [u8; 16],
    pub work: Work,
}

// From the highest branch down, so that `head` always holds the next side at its bus.
pub fn link(buses: usize, branches: usize, first: [u8; 256], second: [u8; 256]) -> Wires
    requires { Linkable buses branches first second }
    ensures { Wiring buses branches first second result }
{
    let mut head = [512u16; 128];
    let mut after = [512u16; 512];
    let mut far = [0u8; 512];
    for k in (0..branches).rev() {
        let a = usize::from(first[k]);
        let b = usize::from(second[k]);
        after[k] = head[a];
        after[k + 256] = head[b];
        // A cast, here and below: std has no `From` that narrows, and the proof shows that it fits.
        head[a] = k as u16;
        head[b] = (k + 256) as u16;
        far[k] = second[k];
        far[k + 256] = first[k];
    }
    Wires {
        buses,
        branches,
        first,
        second,
        head,
        after,
        far,
    }
}

// The latent capacity of a branch away from the end where a side meets it: x ahead, y back.
fn away(side: usize, x: u32, y: u32) -> u32
    ensures { result ≡ cond (ltb side 256) x y }
{
    if side < 256 { x } else { y }
}

// What a search has marked so far; of each marked bus, `room` has the smallest latent capacity of the way to it and `origin` its start.
#[derive(Clone, Copy)]
struct Grown {
    marks: [u16; 128],
    queue: [u8; 128],
    room: [u32; 128],
    origin: [u8; 128],
    count: usize,
}

// Every start is marked 1, queued and its own origin.
fn seed(buses: usize, roles: [u8; 128], mut marks: [u16; 128], mut queue: [u8; 128]) -> Grown
    requires { Blank buses marks }
    ensures { Seeded buses roles result }
{
    let mut origin = [0u8; 128];
    let mut count: usize = 0;
    for v in 0..buses {
        if roles[v] == 1 {
            marks[v] = 1;
            queue[count] = v as u8;
            origin[v] = v as u8;
            // The length of the queue so far, and no index of the loop.
            count += 1;
        }
    }
    Grown {
        marks,
        queue,
        room: [4294967295u32; 128],
        origin,
        count,
    }
}

// Eight marks as the bits of a byte, the first of them the highest: from `at` on, as `Byte` names them.
fn byte(marks: [u16; 128], at: usize) -> u8
    requires { at + 8 ≤ 128 }
    ensures { Byte marks at result }
{
    let mut x: u8 = 0;
    for mark in &marks[at..at + 8] {
        x = x * 2 + u8::from(*mark > 0);
    }
    x
}

fn bits(marks: [u16; 128]) -> [u8; 16]
    ensures { Bits marks result }
{
    let mut group = [0u8; 16];
    for j in 0..16 {
        group[j] = byte(marks, 8 * j);
    }
    group
}

// The work goes back as it came but for the marks and the queue: a new one would copy the capacities once more.
fn packed(answer: Search, mut work: Work, tree: Grown) -> Found
    ensures { Packed answer work tree result }
{
    let marks = tree.marks;
    let queue = tree.queue;
    let group = match answer {
        Search::Route(_, _, _) => [0u8; 16],
        Search::Group => bits(marks),
    };
    work.marks = marks;
    work.queue = queue;
    Found {
        answer,
        taken: tree.count,
        group,
        work,
    }
}

// From the buses of role 1, over latent capacity, to the first bus of role 2. Roles are bytes and no enum: `Searchable` asks nothing of them, and any
// other byte is no role.
pub fn explore(wires: Wires, work: Work, roles: [u8; 128]) -> Found
    requires { Searchable wires work }
    ensures { Searched wires work roles result }
{
    let mut tree = seed(wires.buses, roles, work.marks, work.queue);
    let mut at: usize = 0;
    // No `for` here nor below: the queue grows while it is walked, and a side names the one after it.
    let answer = 'scan: loop {
        if at >= tree.count {
            break 'scan Search::Group;
        }
        let here = usize::from(tree.queue[at]);
        let low = tree.room[here];
        let mut side = usize::from(wires.head[here]);
        while side < 512 {
            let k = side % 256;
            let to = usize::from(wires.far[side]);
            let spare = away(side, work.latent.ahead[k], work.latent.back[k]);
            if spare > 0 && tree.marks[to] == 0 {
                let least = low.min(spare);
                let start = tree.origin[here];
                let tail = tree.count;
                tree.marks[to] = (k + 2) as u16;
                tree.queue[tail] = to as u8;
                tree.room[to] = least;
                tree.origin[to] = start;
                tree.count = tail + 1;
                if roles[to] == 2 {
                    break 'scan Search::Route(to, least, usize::from(start));
                }
            }
            side = usize::from(wires.after[side]);
        }
        at += 1;
    };
    packed(answer, work, tree)
}
