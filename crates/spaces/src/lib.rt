// The spaces that a stream of calls works on, and the commands that only set them. Each answers how many bytes of the stream it took, and `None` where it is
// bad.
#![tactic(auto)]

ghost use Rattle.std.specs.Prelude.{◌≡◌, ◌+◌, ◌<◌, ◌≤◌, length, set, IfSome, IfNone};
ghost use Rattle.rows.specs.Row.{two_at};
ghost use Rattle.spaces.specs.InsideStream.{BookCopied, PercentSet, PlacesSet, Spoilt};

mod numbers;
mod stream;

pub use numbers::number_at;
use rows::two;
pub use stream::four;

// What the calls are lent: the percentage that stands, a packed book in the first bytes of its space, a flow, a table of records, the tables beside a
// book, and the shelf that a moved book is put on. Rows of fixed length, since there is no heap: a call is
// lent one whole or in part.
#[derive(Drop)]
pub struct Spaces {
    pub percent: u32,
    pub book: [u8; 2100],
    pub bytes: usize,
    pub flow: [i32; 256],
    pub table: [u8; 13312],
    pub injections: [i32; 128],
    pub branches: [u32; 1280],
    pub shelf: [u8; 2100],
    ghost within: { bytes ≤ 2100 },
}

impl Spaces {
    ghost use Rattle.spaces.specs.InsideSpaces.{AllSpoilt, BookSet, Beside};

    // No book yet, and the whole nameplate.
    pub fn new() -> Spaces
        ensures percent { result.percent ≡ 100 }
        ensures no_book { result.bytes ≡ 0 }
    {
        Spaces {
            percent: 100,
            book: [0u8; 2100],
            bytes: 0,
            flow: [0i32; 256],
            table: [0u8; 13312],
            injections: [0i32; 128],
            branches: [0u32; 1280],
            shelf: [0u8; 2100],
        }
    }

    // `P`.
    pub fn spoil(&mut self)
        ensures { AllSpoilt self.old self.new }
    {
        self.bytes = 0;
        spoil(
            &mut self.book,
            &mut self.flow,
            &mut self.table,
            &mut self.injections,
            &mut self.branches,
            &mut self.shelf,
        );
    }

    // `B`.
    pub fn set_book(&mut self, rest: &[u8]) -> Option<usize>
        ensures book_set { BookSet rest.now self.old self.new result }
        ensures upper_bound { IfSome result (λ n. n ≤ length rest.now) }
    {
        self.bytes = set_book(rest, &mut self.book)?;
        Some(3 + self.bytes)
    }

    // `F`, `T`, `I` and `N`.
    pub fn set_place(&mut self, letter: u8, rest: &[u8]) -> Option<usize>
        ensures places_set { PlacesSet letter rest.now self.old.flow self.old.table self.old.injections self.old.branches self.new.flow self.new.table self.new.injections self.new.branches result }
        ensures beside { Beside self.old self.new }
        ensures upper_bound { IfSome result (λ n. n ≤ length rest.now) }
    {
        set_place(
            rest,
            letter,
            &mut self.flow,
            &mut self.table,
            &mut self.injections,
            &mut self.branches,
        )
    }
}

// Numbers that no call leaves by itself, so that what it does not write is seen.
pub fn spoil(
    book: &mut [u8; 2100],
    flow: &mut [i32; 256],
    table: &mut [u8; 13312],
    injections: &mut [i32; 128],
    branches: &mut [u32; 1280],
    shelf: &mut [u8; 2100],
)
    ensures { Spoilt book.new flow.new table.new injections.new branches.new shelf.new }
{
    *book = [170u8; 2100];
    *flow = [7777777i32; 256];
    *table = [170u8; 13312];
    *injections = [7777777i32; 128];
    *branches = [7777777u32; 1280];
    *shelf = [170u8; 2100];
}

// `Y`. Any byte is taken: the calls refuse what is out of range.
pub fn set_percent(rest: &[u8], percent: &mut u32) -> Option<usize>
    ensures percent_set { PercentSet rest.now percent.old percent.new result }
    ensures upper_bound { IfSome result (λ n. n ≤ length rest.now) }
{
    *percent = u32::from(*rest.get(1)?);
    Some(2)
}

// The place that a command of `size` bytes names: `None` where the stream ends inside it.
fn place_of(rest: &[u8], size: usize) -> Option<usize>
    requires { 3 ≤ size }
    ensures some { IfSome result (λ k. (size ≤ length rest.now) × (k ≡ two_at rest.now 1)) }
    ensures none { IfNone result (length rest.now < size) }
{
    if rest.len() < size {
        return None;
    }
    Some(two(rest, 1))
}

// A place that a command names, where its space has it.
fn set<T: Copy>(space: &mut [T], k: usize, value: T) -> Option<()>
    ensures some { IfSome result (λ _. (k < length space.old) × (space.new ≡ set space.old k value)) }
    ensures none { IfNone result ((length space.old ≤ k) × (space.new ≡ space.old)) }
{
    if space.len() <= k {
        return None;
    }
    space[k] = value;
    Some(())
}

// The place that `F`, `T`, `I` or `N` names, in spaces of any size.
pub fn set_place(
    rest: &[u8],
    letter: u8,
    flow: &mut [i32],
    table: &mut [u8],
    injections: &mut [i32],
    branches: &mut [u32],
) -> Option<usize>
    ensures places_set { PlacesSet letter rest.now flow.old table.old injections.old branches.old flow.new table.new injections.new branches.new result }
    ensures upper_bound { IfSome result (λ n. n ≤ length rest.now) }
{
    // The letter is asked before the length, in one `match`: compiled into a caller that asks it too, both are then one jump.
    match letter {
        b'F' => {
            set(flow, place_of(rest, 7)?, four(rest, 3).cast_signed())?;
            Some(7)
        }
        b'T' => {
            set(table, place_of(rest, 4)?, rest[3])?;
            Some(4)
        }
        b'I' => {
            set(injections, place_of(rest, 7)?, four(rest, 3).cast_signed())?;
            Some(7)
        }
        b'N' => {
            set(branches, place_of(rest, 7)?, four(rest, 3))?;
            Some(7)
        }
        _ => None,
    }
}

// The bytes that `B` names, put at the start of the book space: how many they are.
pub fn set_book(rest: &[u8], book: &mut [u8]) -> Option<usize>
    ensures { BookCopied rest.now book.old book.new result }
{
    if rest.len() < 3 {
        return None;
    }
    let count = two(rest, 1);
    if book.len() < count || rest.len() < 3 + count {
        return None;
    }
    book[..count].copy_from_slice(&rest[3..3 + count]);
    Some(count)
}
