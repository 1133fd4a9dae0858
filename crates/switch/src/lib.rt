// What taking a branch out and bringing one back share: the check of that branch, and the rows with its status switched.
// What is public here serves these two calls alone, which meet what it requires.
#![tactic(auto)]

ghost use Rattle.std.specs.Prelude.{◌≡◌, ◌<◌};
ghost use Rattle.switch.specs.Check.{branch_status};
ghost use Rattle.switch.specs.Inside.{With};

use answer::Refusal;

// Refusals 21 and 1 to 8, then 9; else whether the branch has that status already, for which each call has a refusal of its own.
pub fn check(
    percent: u32,
    book: &[u8],
    flows: usize,
    bytes: usize,
    branch: usize,
    status: u32,
) -> Result<bool, Refusal>
    ensures { result ≡ branch_status percent book.now flows bytes branch status }
{
    state::check_lent(percent, book, flows, bytes)?;
    let head = layout::head_of(book);
    if head.branches <= branch {
        return Err(Refusal::NoSuchBranch);
    }
    let x = layout::branch_at(book, head.form, head.buses, branch);
    if x.status == status {
        return Ok(true);
    }
    Ok(false)
}

// A row with one of its places written.
pub fn with<T: Copy>(mut row: [T; 256], k: usize, to: T) -> [T; 256]
    requires { k < 256 }
    ensures { With row k to result }
{
    row[k] = to;
    row
}
