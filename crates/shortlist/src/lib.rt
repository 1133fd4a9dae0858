// The shortlist of a call that changes flows: which records it writes anew.
// What is public here serves the calls alone, which meet what it requires.
#![tactic(auto)]

ghost use Rattle.std.specs.Prelude.{◌≡◌, ◌*◌, ◌≤◌, length};
ghost use Rattle.state.specs.Inside.{Listing};
ghost use Rattle.shortlist.specs.Inside.{listed_if, listed_at};

// On the shortlist: out of service, touched, or by its record as it was lent.
#[tactic(auto, unfolding(crate::specs::Inside::listed_if))]
fn is_listed(rec: &[u8], serving: bool, touched: [u8; 32], k: usize) -> bool
    requires { length rec.now ≡ 52 }
    ensures { result ≡ listed_if serving touched rec.now k }
{
    !serving || bits::is_set(&touched, k) || record::is_listed(rec, touched)
}

// The bits of the shortlist, from the table as it was lent.
pub fn shortlist(table: &[u8], branches: usize, served: [bool; 256], touched: [u8; 32]) -> [u8; 32]
    requires { (branches ≤ 256) × (52 * branches ≤ length table.now) }
    ensures { Listing branches (listed_at served touched table.now) result }
{
    bits::marked(branches, |k| {
        is_listed(record::stretch(table, k), served[k], touched, k)
    })
}
