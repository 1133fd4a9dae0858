// The stretch of a branch, 52 bytes out of the middle of the lent table: cut, written, read, and tested for the shortlist.
#![tactic(auto)]

ghost use Rattle.std.specs.Prelude.{◌≡◌, ◌+◌, ◌*◌, ◌≤◌, ◌<◌, eqb, length, take, drop};
ghost use Rattle.verdict.specs.Record.{verdict_in};
ghost use Rattle.record.specs.Inside.{Stretch, record_bytes, Read, listed};

// What a record shows of its branch. The verdict stays a byte: a lent table may hold any, and what `Read` promises of it is the byte itself.
#[derive(Clone, Copy)]
pub struct Entry {
    pub verdict: u8,
    pub shortage: u32,
    pub group: [u8; 16],
}

// The stretch of branch k, cut for reading in this one place: a slice, as document 01 has it, whose 52 bytes stand in the clauses below.
pub fn stretch(table: &[u8], k: usize) -> &[u8]
    requires { 52 * k + 52 ≤ length table.now }
    ensures { Stretch table.now k result.now }
{
    let a = 52 * k;
    let e = a + 52;
    &table[a..e]
}

// All 52 bytes of a record.
pub fn write(rec: &mut [u8], verdict: u8, shortage: u32, group: [u8; 16], reroute: [u8; 32])
    requires { (length rec.old ≡ 52) × (shortage < 16777216) }
    ensures { rec.new ≡ record_bytes verdict shortage group reroute }
{
    rec[0] = verdict;
    rec[1..4].copy_from_slice(&shortage.to_be_bytes()[1..]);
    rec[4..20].copy_from_slice(&group);
    rec[20..52].copy_from_slice(&reroute);
}

// What a record shows.
pub fn read(rec: &[u8]) -> Entry
    requires { length rec.now ≡ 52 }
    ensures { Read rec.now result }
{
    let mut group = [0u8; 16];
    group.copy_from_slice(&rec[4..20]);
    Entry {
        verdict: rec[0],
        shortage: u32::from_be_bytes([0, rec[1], rec[2], rec[3]]),
        group,
    }
}

// The bytes of the reroute.
pub fn reroute_of(rec: &[u8]) -> [u8; 32]
    requires { length rec.now ≡ 52 }
    ensures { result ≡ take 32 (drop 20 rec.now) }
{
    let mut reroute = [0u8; 32];
    reroute.copy_from_slice(&rec[20..52]);
    reroute
}

// Byte 0 is 1.
pub fn carries(rec: &[u8]) -> bool
    requires { length rec.now ≡ 52 }
    ensures { result ≡ eqb (verdict_in rec.now) 1 }
{
    rec[0] == 1
}

// Byte 0 isn't 1, or the reroute names a touched branch. A byte of both is tested at once.
#[tactic(auto, unfolding(crate::specs::Inside::listed))]
pub fn is_listed(rec: &[u8], touched: [u8; 32]) -> bool
    requires { length rec.now ≡ 52 }
    ensures { result ≡ listed rec.now touched }
{
    if !carries(rec) {
        return true;
    }
    rec[20..52]
        .iter()
        .zip(&touched)
        .any(|(named, mark)| named & mark != 0)
}
