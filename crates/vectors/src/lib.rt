// What the programs share that run cases from standard input: lines, and the numbers and bytes in them; what lent bytes
// hold before a call, whether they still do, and their checksum.
#![tactic(auto)]

ghost use Rattle.std.specs.Prelude.{◌≡◌, ◌&&◌, ◌+◌, ◌-◌, ◌≤◌, ◌<◌, ltb, eqb, length, get_or, replicate, is_some};
ghost use Rattle.std.specs.Prelude.{IsSome, IsTrue, ◌↔◌, ℕ};
ghost use Rattle.std.specs.Iterator.{at_most};
ghost use Rattle.std.proofs.lemmas.List.Edits.{sets};
ghost use Rattle.std.proofs.Math.Seq.{slice};
ghost use Rattle.vectors.specs.Cases.{DigitMet, LineEnds, NextLine, digit_of, digit_at, filling_at, number_filling_at};
ghost use Rattle.vectors.specs.Cases.{DecimalMet, TimesMet, Filled, UnchangedMet, sum_with, sum_with_number, sum_from};
ghost use Rattle.vectors.specs.Groups.{groups_of, group_at, took_bytes, repeated, EndMet};

use std::fmt;

// A number, and where the line goes on.
#[derive(Clone, Copy)]
pub struct Scanned {
    pub value: u64,
    pub next: usize,
}

// How far a line is read: where it goes on, and how much of a slice is stored.
#[derive(Clone, Copy)]
pub struct Step {
    pub next: usize,
    pub size: usize,
}

// ---- lines

// The lines of an input, each without its newline. After a last newline there is no line.
#[derive(Drop)]
pub struct Lines<'a> {
    rest: &'a [u8],
}

impl<'a> Lines<'a> {
    pub fn new(input: &'a [u8]) -> Lines<'a>
        ensures { result.rest.now ≡ input.now }
    {
        Lines { rest: input }
    }
}

impl<'a> Iterator for Lines<'a> {
    type Item = &'a [u8];

    ghost next_gives = { λ s r t. NextLine s.rest.now r t.rest.now };

    ghost remaining = { λ s. at_most (length s.rest.now) };

    fn next(&mut self) -> Option<&'a [u8]> {
        if self.rest.is_empty() {
            return None;
        }
        let (line, rest) = self.rest.split_at(line_end(self.rest));
        self.rest = rest.get(1..).unwrap_or(rest);
        Some(line)
    }
}

// Where the first line ends.
fn line_end(input: &[u8]) -> usize
    ensures upper_bound { result ≤ length input.now }
    ensures line_ends { LineEnds input.now 0 result }
{
    input
        .iter()
        .position(|b| *b == b'\n')
        .unwrap_or(input.len())
}

// Whether the byte b stands at `at`.
pub fn stands(line: &[u8], at: usize, b: u8) -> bool
    ensures { result ≡ ltb at (length line.now) && eqb (get_or line.now at 0) b }
{
    line.get(at) == Some(&b)
}

// ---- numbers

// The worth of a hexadecimal digit.
#[tactic(auto, using(flow::specs::Tests::picks), unfolding(crate::specs::Cases::digit_of))]
pub fn digit(b: u8) -> Option<u8>
    ensures { DigitMet (digit_of b) result }
{
    match b {
        b'0'..=b'9' => Some(b - b'0'),
        b'a'..=b'f' => Some(b - b'a' + 10),
        _ => None,
    }
}

// The worth of the digit at `at`.
#[tactic(auto, using(crate::proofs::Laws::digit_past))]
pub fn digit_at(line: &[u8], at: usize) -> Option<u8>
    ensures value { DigitMet (digit_at line.now at) result }
    ensures at_in_bounds { IsSome result → at < length line.now }
{
    digit(*line.get(at)?)
}

// The number below 2^64 that the decimal digits from `at` on are.
#[tactic(auto, using(crate::proofs::Laws::decimals))]
pub fn decimal(line: &[u8], at: usize) -> Option<Scanned>
    ensures { DecimalMet line.now at result }
{
    let mut here = at;
    let mut value: u64 = 0;
    while let Some(d @ 0..=9) = digit_at(line, here) {
        value = value.checked_mul(10)?.checked_add(u64::from(d))?;
        here += 1;
    }
    if here == at {
        return None;
    }
    Some(Scanned { value, next: here })
}

// How often there is what ends at `at`: the number after `*`, or once.
#[tactic(auto, using(crate::proofs::Laws::how_often))]
pub fn times(line: &[u8], at: usize) -> Option<Scanned>
    ensures { TimesMet line.now at result }
{
    if stands(line, at, b'*') {
        return decimal(line, at + 1);
    }
    Some(Scanned { value: 1, next: at })
}

// ---- bytes

// The bytes that the hexadecimal digits from `at` on are, in `bytes` from `from` on.
fn take_bytes(line: &[u8], at: usize, bytes: &mut [u8], from: usize) -> Option<Step>
    requires { from ≤ length bytes.old }
    ensures { took_bytes line.now at bytes.old from ≡ (result, bytes.new) }
{
    let mut here = at;
    let mut size = from;
    while let Some(high) = digit_at(line, here) {
        let low = digit_at(line, here + 1)?;
        if bytes.len() <= size {
            return None;
        }
        bytes[size] = high * 16 + low;
        size += 1;
        here += 2;
    }
    Some(Step { next: here, size })
}

// The bytes from `from` to below `size` once more, from `here` on, as many as there is room for; and where they end, if
// that is all of them.
#[tactic(auto, using(crate::proofs::Stores::copied))]
fn again(bytes: &mut [u8], from: usize, size: usize, here: usize) -> Option<usize>
    requires { (from < size) × (size ≤ here) × (here ≤ length bytes.old) }
    ensures value { EndMet (here + (size - from)) (length bytes.old) result }
    ensures bytes_after { bytes.new ≡ sets bytes.old here (slice from size bytes.old) }
{
    let room = (bytes.len() - here).min(size - from);
    bytes.copy_within(from..from + room, here);
    if room < size - from {
        return None;
    }
    Some(here + room)
}

// The byte before `size` that many times more, as often as there is room for; and where they end, if that is all of
// them. Most groups are one byte, and some of those are there very often: one fill takes less than a copy each time.
fn repeat_byte(bytes: &mut [u8], size: usize, more: usize) -> Option<usize>
    requires { (0 < size) × (size ≤ length bytes.old) }
    ensures value { EndMet (size + more) (length bytes.old) result }
    ensures bytes_after { bytes.new ≡ sets bytes.old size (replicate more (get_or bytes.old (size - 1) 0)) }
{
    let byte = bytes[size - 1];
    let room = (bytes.len() - size).min(more);
    bytes[size..size + room].fill(byte);
    if room < more {
        return None;
    }
    Some(size + room)
}

// The bytes from `from` to below `size`, that often in all. `next` is where the line goes on.
#[tactic(auto, using(crate::proofs::Stores::repeats))]
fn repeat(bytes: &mut [u8], from: usize, size: usize, times: u64, next: usize) -> Option<Step>
    requires { (from < size) × (size ≤ length bytes.old) }
    ensures { repeated bytes.old from size times next ≡ (result, bytes.new) }
{
    if times == 0 {
        return Some(Step { next, size: from });
    }
    if size - from == 1 {
        let end = repeat_byte(bytes, size, (times - 1) as usize)?;
        return Some(Step { next, size: end });
    }
    let mut here = size;
    for _ in 1..times {
        here = again(bytes, from, size, here)?;
    }
    Some(Step { next, size: here })
}

// The group at `at`, in `bytes` from `from` on.
fn group(line: &[u8], at: usize, bytes: &mut [u8], from: usize) -> Option<Step>
    requires { (digit_at line.now at < 16) × (from ≤ length bytes.old) }
    ensures { group_at line.now at bytes.old from ≡ (result, bytes.new) }
{
    let once = take_bytes(line, at, bytes, from)?;
    let often = times(line, once.next)?;
    repeat(bytes, from, once.size, often.value, often.next)
}

// The groups from `at` on, a space before each, from the first of the bytes on. A group is bytes, two hexadecimal
// digits each; `*` and a number after them say how often they are there.
pub fn groups(line: &[u8], at: usize, bytes: &mut [u8]) -> Option<Step>
    ensures { groups_of line.now at bytes.old ≡ (result, bytes.new) }
{
    let mut held = Step { next: at, size: 0 };
    while stands(line, held.next, b' ') && digit_at(line, held.next + 1).is_some() {
        held = group(line, held.next + 1, bytes, held.size)?;
    }
    Some(held)
}

// ---- what is lent

// What a slice that is lent to a call consists of: bytes, or the numbers of a table.
pub trait Lent: Copy {
    ghost filled: { ℕ → Self };

    ghost counted: { ℕ → Self → ℕ };

    // What stands at the place i before a call.
    fn filling(i: usize) -> Self
        ensures { result ≡ filled i };

    // Whether it is what stood at the place i.
    fn stayed(self, i: usize) -> bool
        ensures { IsTrue result ↔ (self ≡ filled i) };

    // The checksum s with this.
    fn summed(self, s: u64) -> u64
        ensures { result ≡ counted s self };
}

impl Lent for u8 {
    ghost filled = { filling_at };

    ghost counted = { sum_with };

    #[tactic(auto, unfolding(crate::specs::Cases::filling_at))]
    fn filling(i: usize) -> u8 {
        ((i % 251 * 7 + 3) % 251) as u8
    }

    fn stayed(self, i: usize) -> bool {
        self == u8::filling(i)
    }

    fn summed(self, s: u64) -> u64 {
        summed(s, u64::from(self))
    }
}

impl Lent for u64 {
    ghost filled = { number_filling_at };

    ghost counted = { sum_with_number };

    #[tactic(auto, unfolding(crate::specs::Cases::number_filling_at))]
    fn filling(i: usize) -> u64 {
        0xb1a0_0000_0000_0000 + i as u64 % 0x1_0000_0000
    }

    fn stayed(self, i: usize) -> bool {
        self == u64::filling(i)
    }

    fn summed(self, s: u64) -> u64 {
        summed(summed(s, self / 0x1_0000_0000), self)
    }
}

pub fn fill<L: Lent>(lent: &mut [L])
    ensures { Filled L.filled lent.new 0 }
{
    for (i, x) in lent.iter_mut().enumerate() {
        *x = L::filling(i);
    }
}

// Whether all from `from` on is as it was.
pub fn unchanged<L: Lent>(lent: &[L], from: usize) -> bool
    ensures { UnchangedMet L.filled lent.now from result }
{
    lent.iter().enumerate().skip(from).all(|(i, x)| x.stayed(i))
}

// The checksum s with 32 bits more, below 2^31 - 1.
#[tactic(auto, unfolding(crate::specs::Cases::sum_with))]
fn summed(s: u64, bits: u64) -> u64
    ensures { result ≡ sum_with s bits }
{
    (s % 0x7fff_ffff * 1_000_003 + bits % 0x1_0000_0000) % 0x7fff_ffff
}

// The checksum of what is lent.
#[tactic(auto, using(crate::proofs::Laws::sum_is))]
pub fn sum<L: Lent>(lent: &[L]) -> u64
    ensures { result ≡ sum_from L.counted 7 lent.now }
{
    lent.iter().fold(7, |s, x| x.summed(s))
}

// A lent slice after a call: its checksum, and `ok` where all from `from` on is as it was.
#[derive(Clone, Copy)]
pub struct After<'a, L> {
    pub lent: &'a [L],
    pub from: usize,
}

impl<L: Lent> fmt::Display for After<'_, L> {
    fn fmt<W: fmt::Write>(&self, f: &mut fmt::Formatter<W>) -> fmt::Result {
        write!(f, "{}", sum(self.lent))?;
        if unchanged(self.lent, self.from) {
            write!(f, " ok")?;
        }
        Ok(())
    }
}

// Bytes in hexadecimal digits.
#[derive(Clone, Copy)]
pub struct Hex<'a>(pub &'a [u8]);

impl fmt::Display for Hex<'_> {
    fn fmt<W: fmt::Write>(&self, f: &mut fmt::Formatter<W>) -> fmt::Result {
        for b in self.0 {
            write!(f, "{b:02x}")?;
        }
        Ok(())
    }
}
