// Numbers in byte slices, the highest byte first.
#![tactic(auto)]

ghost use Rattle.std.specs.Prelude.{◌≡◌, ◌+◌, ◌%◌, ◌^◌, ◌<◌, leb, length, take, drop};
ghost use Rattle.flow.specs.Flow.{stored};
ghost use Rattle.wire.specs.BigEndian.{joined, be};

// A byte as a number of 64 bits.
pub fn wide(b: u8) -> u64
    ensures { result ≡ b }
{
    u64::from(b)
}

// The number that up to `count` bytes from `at` on go on with, where those before them are `held`, in 64 bits.
pub fn number_at(bytes: &[u8], at: usize, count: usize, held: u64) -> u64
    ensures { result ≡ joined held (take count (drop at bytes.now)) % 2 ^ 64 }
{
    let rest = &bytes[at.min(bytes.len())..];
    let mut v = held;
    for b in &rest[..count.min(rest.len())] {
        v = (v << 8) + wide(*b);
    }
    v
}

// The number of up to four bytes from `at` on. Where all are there, it is one load.
pub fn four_at(bytes: &[u8], at: usize) -> u64
    ensures { (result ≡ joined 0 (take 4 (drop at bytes.now))) × (result < 2 ^ 32) }
{
    if at < bytes.len()
        && let Some(four) = bytes[at..].first_chunk()
    {
        return u64::from(u32::from_be_bytes(*four));
    }
    number_at(bytes, at, 4, 0)
}

// The number of up to eight bytes from `at` on. Where all are there, it is one load.
pub fn eight_at(bytes: &[u8], at: usize) -> u64
    ensures { result ≡ joined 0 (take 8 (drop at bytes.now)) }
{
    if at < bytes.len()
        && let Some(eight) = bytes[at..].first_chunk()
    {
        return u64::from_be_bytes(*eight);
    }
    number_at(bytes, at, 8, 0)
}

// ---- storing

// The `count` lowest bytes of `value` in `bytes` from `at` on, where all of them fit. Whether they do.
pub fn store_number(bytes: &mut [u8], at: usize, count: usize, value: u64) -> bool
    ensures { (result ≡ leb (at + count) (length bytes.old))
        × (bytes.new ≡ stored bytes.old at (be count value)) }
{
    let len = bytes.len();
    if len < at || len - at < count {
        return false;
    }
    let mut rest = value;
    for k in (0..count).rev() {
        bytes[at + k] = (rest % 256) as u8;
        rest /= 256;
    }
    true
}
