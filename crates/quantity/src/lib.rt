// The quantities of the book and the meters: ratings in kVA, power in kW, signed numbers by their parts, registers.
#![tactic(auto)]

ghost use Rattle.std.specs.Prelude.{◌≡◌, ◌+◌, ◌-◌, ◌≤◌, pos, ◌-ℤ◌};
ghost use Rattle.rows.specs.Sum.{pick};
ghost use Rattle.quantity.specs.Signed.{pos_part, neg_part, is_neg, of_size};
ghost use Rattle.quantity.specs.Rating.{limit_of, percent_out};
ghost use Rattle.quantity.specs.Register.{advance};

// Apparent power.
#[derive(Clone, Copy)]
pub struct Kva(pub u32);

// Real power.
#[derive(Clone, Copy)]
pub struct Kw(pub u32);

// What a rating allows at a power factor in thousandths and a percentage of nameplate. A rating leaves its kVA nowhere else.
pub fn limit(rating: Kva, factor: u32, percent: u32) -> Kw
    requires { (factor ≤ 1000) × (percent ≤ 100) }
    ensures { result.0 ≡ limit_of rating.0 factor percent }
{
    let product = u64::from(rating.0) * u64::from(factor) * u64::from(percent);
    // A cast: std has no `From` for it, and the proof shows that it fits.
    Kw((product / 100000) as u32)
}

// Whether a percentage is outside 50 to 100.
#[tactic(auto, unfolding(crate::specs::Rating::percent_out))]
pub fn percent_out(percent: u32) -> bool
    ensures { result ≡ percent_out percent }
{
    !(50..=100).contains(&percent)
}

// What of x lies above 0.
pub fn above(x: i32) -> u32
    ensures { result ≡ pos_part x }
{
    x.max(0).unsigned_abs()
}

// What of x lies below 0: the least number's size has no i32 of its own, but a u32.
pub fn below(x: i32) -> u32
    ensures { result ≡ neg_part x }
{
    x.min(0).unsigned_abs()
}

// The number of a sign and a size.
pub fn signed(negative: bool, size: u32) -> i32
    requires { size ≤ 2147483647 }
    ensures { result ≡ of_size negative size }
{
    let x = size.cast_signed();
    if negative { -x } else { x }
}

// More less less, with its sign.
pub fn difference(more: u32, fewer: u32) -> i32
    requires { (more ≤ 2147483647) × (fewer ≤ 2147483647) }
    ensures { result ≡ pos more -ℤ pos fewer }
{
    more.cast_signed() - fewer.cast_signed()
}

// 1 where more leaves than enters: a zero has no sign.
pub fn sign_of(enters: u32, leaves: u32) -> u32
    ensures { result ≡ pick (is_neg (pos enters -ℤ pos leaves)) 1 }
{
    u32::from(enters < leaves)
}

// How far two numbers are apart.
pub fn apart(x: u32, y: u32) -> u32
    ensures { result ≡ (x - y) + (y - x) }
{
    x.abs_diff(y)
}

// How far a register went on from one reading to the next, carried past its top.
pub fn advanced(start: u32, end: u32) -> u32
    ensures { result ≡ advance start end }
{
    end.wrapping_sub(start)
}
