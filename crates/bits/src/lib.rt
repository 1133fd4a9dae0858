// Bits in a row of bytes, the most significant of a byte first: fields read and put, one bit made or tested, all of them counted.
#![tactic(auto)]

ghost use Rattle.std.specs.Prelude.{◌≡◌, ◌+◌, ◌<◌, ◌≤◌, ◌^◌};
ghost use Rattle.rows.specs.Row.{nth};
ghost use Rattle.rows.specs.Bit.{has};
ghost use Rattle.rows.specs.Sum.{size};
ghost use Rattle.rows.specs.Inside.{Asked};
ghost use Rattle.bits.specs.Inside.{Marked};
ghost use Rattle.bits.specs.Field.{field, with_bit, set_bit, put};

// Byte k, and 0 past the end.
fn byte(s: &[u8], k: usize) -> u32
    ensures { (result ≡ nth s.now k) × (result < 256) }
{
    s.get(k).map_or(0, |&x| u32::from(x))
}

// The number in the bits from `at` on, out of a window of four bytes.
pub fn field(s: &[u8], at: usize, width: usize) -> u32
    requires { (1 ≤ width) × (width ≤ 25) }
    ensures { result ≡ field s.now at width }
{
    let k = at / 8;
    // No `from_be_bytes`: a byte past the end counts as 0.
    let x = byte(s, k) * 16777216 + byte(s, k + 1) * 65536 + byte(s, k + 2) * 256 + byte(s, k + 3);
    (x >> (32 - at % 8 - width)) % (1u32 << width)
}

// x with its bit of value 2 ^ k made b.
fn with_bit(x: u8, k: u32, b: u8) -> u8
    requires { (k < 8) × (b < 2) }
    ensures { result ≡ with_bit x k b }
{
    let old = (x >> k) % 2;
    x - (old << k) + (b << k)
}

// Bit i, and no other, is made b.
pub fn set_bit(out: &mut [u8], i: usize, b: u8)
    requires { b < 2 }
    ensures { out.new ≡ set_bit out.old i b }
{
    let k = i / 8;
    // A cast, here and below: std has no `From` for it, and the proof shows that it fits.
    if k < out.len() {
        out[k] = with_bit(out[k], (7 - i % 8) as u32, b);
    }
}

// The low bits of v, put from `at` on.
pub fn put(out: &mut [u8], at: usize, width: usize, v: u32)
    requires { at + width < 2 ^ 64 }
    ensures { out.new ≡ put out.old at width v }
{
    let mut x = v;
    for i in (0..width).rev() {
        set_bit(out, at + i, (x % 2) as u8);
        x /= 2;
    }
}

// A row of 256 bits, of which those below n are 1 where `test` holds, and no other is.
pub fn marked<F: Fn(usize) -> bool>(n: usize, test: F) -> [u8; 32]
    requires { (n ≤ 256) × Asked n (F.pre test) }
    ensures { Marked n (F.post test) result }
{
    let mut row = [0u8; 32];
    for k in 0..n {
        if test(k) {
            set_bit(&mut row, k, 1);
        }
    }
    row
}

// Whether bit k is 1.
pub fn is_set(row: &[u8], k: usize) -> bool
    ensures { result ≡ has row.now k }
{
    (byte(row, k / 8) >> (7 - k % 8) as u32) % 2 == 1
}

// How many bits of a group are 1, by the processor's own count of set bits, byte by byte.
pub fn count(group: [u8; 16]) -> usize
    ensures { result ≡ size 128 (has group) }
{
    let mut total: usize = 0;
    for x in &group {
        total += x.count_ones() as usize;
    }
    total
}
