// Numbers with a sign, and their two's complement in 64 bits.
ghost use Rattle.std.specs.Prelude.{◌≡◌, ◌+◌, ◌*◌, ◌%◌, ◌^◌, ◌<◌, pos, ◌-ℤ◌, ◌*ℤ◌, int_div, nat_lt};
ghost use Rattle.std.specs.Int.{w32, w64};
ghost use Rattle.std.proofs.Common.{of_z, to_z};

// The number of 32 bits n, with its sign.
pub(crate) fn signed_32(n: u64) -> i64
    requires { n < 2 ^ 32 }
    ensures { result ≡ to_z w32 n }
{
    i64::from((n as u32).cast_signed())
}

// u less k.
pub(crate) fn less(u: u64, k: u64) -> u64
    requires { (u < 2 ^ 63) × (k < 2 ^ 63) }
    ensures { result ≡ of_z w64 (pos u -ℤ pos k) }
{
    ((u as i64) - (k as i64)).cast_unsigned()
}

// Whether the number whose two's complement is v is one from -d to d - 1.
pub(crate) fn within(v: u64, d: u64) -> bool
    requires { d < 2 ^ 63 }
    ensures { result ≡ nat_lt ((v + d) % 2 ^ 64) (2 * d) }
{
    v.wrapping_add(d) < 2 * d
}

// So many minutes of 32 bits, with their sign, in milliseconds.
pub(crate) fn milliseconds(n: u64) -> u64
    requires { n < 2 ^ 32 }
    ensures { result ≡ of_z w64 (to_z w32 n *ℤ pos 60000) }
{
    (signed_32(n) * 60000).cast_unsigned()
}

// The whole minutes of so many milliseconds, their 32 lowest bits.
pub(crate) fn minutes(v: u64) -> u64
    ensures { result ≡ of_z w64 (int_div (to_z w64 v) (pos 60000)) % 2 ^ 32 }
{
    (v.cast_signed() / 60000).cast_unsigned() % 0x1_0000_0000
}
