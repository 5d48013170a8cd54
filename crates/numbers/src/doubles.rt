// Doubles by their bits. The definitions are in scalar's specs/Scalars.antt.
ghost use Rattle.std.specs.Prelude.{◌≡◌, ◌+◌, ◌^◌, ◌<◌, ◌≤◌};
ghost use Rattle.std.specs.Int.{w8, w16, w32};
ghost use Rattle.std.proofs.Common.{to_z};
ghost use Rattle.scalar.specs.Scalars.{scaled as scaledOf, whole as whole_of, widened as widenedOf};
ghost use Rattle.scalar.specs.Scalars.{thousandths as thousandthsOf};
ghost use Rattle.scalar.specs.Guesses.{narrow_magnitude, narrowed as narrowedOf, whole_size, whole_guess};

// The bits of the double m * 2 ^ (c - 1074).
fn scaled(c: u64, m: u32) -> u64
    requires { (0 < m) × (52 ≤ c) × (c ≤ 1074) }
    ensures { result ≡ scaledOf c m }
{
    let zeros = u32::leading_zeros(m) as u64;
    (c - 21 - zeros) * 0x10_0000_0000_0000 + ((m as u64) << (21 + zeros))
}

// The bits of the double that a float of 32 bits is.
#[inline(always)]
pub(crate) fn widened(u: u32) -> u64
    ensures { result ≡ widenedOf u }
{
    let s = ((u / 0x8000_0000) as u64) * 0x8000_0000_0000_0000;
    let x = ((u / 0x80_0000) % 256) as u64;
    let t = u % 0x80_0000;
    if x == 255 {
        return s + 0x7ff0_0000_0000_0000 + (t as u64) * 0x2000_0000;
    }
    if 0 < x {
        return s + (x + 896) * 0x10_0000_0000_0000 + (t as u64) * 0x2000_0000;
    }
    if t == 0 {
        return s;
    }
    s + scaled(925, t)
}

// The bits of the double that so many thousandths are, a whole number of 32 bits in two's complement: it as a double,
// which is exact, times the double nearest to 0.001, rounded once.
pub fn thousandths(u: u32) -> u64
    ensures { result ≡ thousandthsOf (to_z w32 u) }
{
    let m = u.cast_signed();
    f64::to_bits(f64::from(m) * 0.001)
}

// The bits of the double that is the whole number n.
pub(crate) fn whole(n: i16) -> u64
    ensures { result ≡ whole_of n }
{
    f64::to_bits(f64::from(n))
}

// The same of a whole number of 8 bits and of 16, by its two's complement: two lines, since each names its own types.
pub(crate) fn whole_byte(u: u64) -> u64
    requires { u < 2 ^ 8 }
    ensures { result ≡ whole_of (to_z w8 u) }
{
    whole(i16::from((u as u8).cast_signed()))
}

pub(crate) fn whole_pair(u: u64) -> u64
    requires { u < 2 ^ 16 }
    ensures { result ≡ whole_of (to_z w16 u) }
{
    whole((u as u16).cast_signed())
}

// Of a double's exponent and fraction, the exponent and the fraction of the float that it may be.
fn narrow_magnitude(x: u64, t: u64) -> u64
    requires { t < 2 ^ 52 }
    ensures { (result ≡ narrow_magnitude x t) × (result < 2 ^ 31) }
{
    match x {
        2047 => 0x7f80_0000 + t / 0x2000_0000,
        897..=1150 => (x - 896) * 0x80_0000 + t / 0x2000_0000,
        874..=896 => (0x10_0000_0000_0000 + t) >> (926 - x),
        _ => 0,
    }
}

// The float of 32 bits that a double may be.
pub(crate) fn narrowed(v: u64) -> u64
    ensures { (result ≡ narrowedOf v) × (result < 2 ^ 32) }
{
    let m = narrow_magnitude((v / 0x10_0000_0000_0000) % 2048, v % 0x10_0000_0000_0000);
    (v / 0x8000_0000_0000_0000) * 0x8000_0000 + m
}

// Of a double's exponent and fraction, the size of the whole number that it may be.
fn whole_size(x: u64, t: u64) -> u64
    requires { t < 2 ^ 52 }
    ensures { (result ≡ whole_size x t) × (result < 2 ^ 32) }
{
    match x {
        1023..=1054 => (0x10_0000_0000_0000 + t) >> (1075 - x),
        _ => 0,
    }
}

// The whole number, of n values in two's complement, that a double may be.
pub(crate) fn whole_guess(n: u64, v: u64) -> u64
    requires { 0 < n }
    ensures { (result ≡ whole_guess n v) × (result < n) }
{
    let m = whole_size((v / 0x10_0000_0000_0000) % 2048, v % 0x10_0000_0000_0000);
    if v < 0x8000_0000_0000_0000 {
        m % n
    } else {
        (0x1_0000_0000 - m) % n
    }
}
