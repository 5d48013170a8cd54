// Single values passed form by form, by plain loads: what pass_number finds. By pass_number alone was tried: it takes two
// to three times the instructions.
ghost use Rattle.std.specs.Prelude.{◌≡◌, ℕ, ◌+◌, ◌*◌, ◌^◌, ◌<◌, ◌≤◌, length};
ghost use Rattle.scalar.specs.declared.Sort.TheVariants as sort;
ghost use Rattle.scalar.specs.declared.Rule.TheVariants as rule;
ghost use Rattle.scalar.specs.Scalars.{forms_of};
ghost use Rattle.scalar.specs.Answers.{number_at};
ghost use Rattle.numbers.specs.Answers.{passed, Takes, form_read, single_form};

use crate::{NumberPassed, byte_at, followed, value_of};
use scalar::{Refused, Rule, Sort};

// The message and a place stay two parameters, as texts has it.

// ---- forms, whose first byte is at `at` and holds `held`

// Of MORE bytes more, less `zero`.
#[inline(always)]
fn compact<const MORE: usize>(
    message: &[u8],
    at: usize,
    held: u8,
    zero: u64,
) -> Result<NumberPassed, Refused>
    requires { (at < length message.now) × (MORE ≤ 2) × (zero < 2 ^ 63) }
    ensures { passed result ≡ form_read message.now at MORE held (rule.Offset zero) }
{
    followed(message, at, MORE)?;
    let mut u = u64::from(held);
    for &b in &message[at + 1..at + 1 + MORE] {
        u = u * 256 + u64::from(b);
    }
    Ok(NumberPassed {
        value: value_of(Rule::Offset(zero), u),
        size: MORE + 1,
    })
}

// Of four bytes more.
#[inline(always)]
fn five_bytes(message: &[u8], at: usize, rule: Rule) -> Result<NumberPassed, Refused>
    requires { (at < length message.now) × ((u : ℕ) → u < 2 ^ 32 → Takes rule u) }
    ensures { passed result ≡ form_read message.now at 4 0 rule }
{
    followed(message, at, 4)?;
    Ok(NumberPassed {
        value: value_of(rule, wire::four_at(message, at + 1)),
        size: 5,
    })
}

// Of 64 bits.
#[inline(always)]
fn nine_bytes(message: &[u8], at: usize) -> Result<NumberPassed, Refused>
    requires { at < length message.now }
    ensures { passed result ≡ form_read message.now at 8 0 rule.Plain }
{
    followed(message, at, 8)?;
    Ok(NumberPassed {
        value: wire::eight_at(message, at + 1),
        size: 9,
    })
}

// ---- values, each by the forms that its function is for; others are read as any number

// A value of a kind whose only form is this byte.
#[inline(always)]
fn single(sort: Sort, code: u8, message: &[u8], at: usize) -> Result<NumberPassed, Refused>
    requires { forms_of sort ≡ single_form code }
    ensures { passed result ≡ number_at sort message.now at }
{
    let b = byte_at(message, at)?;
    if b == code {
        return Ok(NumberPassed { value: 0, size: 1 });
    }
    crate::pass_number(sort, message, at)
}

// Null, false or true.
#[inline(always)]
pub fn pass_single(sort: Sort, message: &[u8], at: usize) -> Result<NumberPassed, Refused>
    ensures { passed result ≡ number_at sort message.now at }
{
    match sort {
        Sort::Null => single(sort, 0x4e, message, at),
        Sort::False => single(sort, 0x46, message, at),
        Sort::True => single(sort, 0x54, message, at),
        _ => crate::pass_number(sort, message, at),
    }
}

// An int, by the forms of the upper half of the codes first.
#[inline(always)]
pub fn pass_int(message: &[u8], at: usize) -> Result<NumberPassed, Refused>
    ensures { passed result ≡ number_at sort.Int message.now at }
{
    let b = byte_at(message, at)?;
    match b {
        0x80..=0xbf => compact::<0>(message, at, b - 0x80, 0x10),
        0xc0..=0xcf => compact::<1>(message, at, b - 0xc0, 0x800),
        0xd0..=0xd7 => compact::<2>(message, at, b - 0xd0, 0x4_0000),
        _ => crate::pass_number(Sort::Int, message, at),
    }
}

// An int, by the form of the lower half first.
#[inline(always)]
pub fn pass_wide_int(message: &[u8], at: usize) -> Result<NumberPassed, Refused>
    ensures { passed result ≡ number_at sort.Int message.now at }
{
    let b = byte_at(message, at)?;
    match b {
        0x49 => five_bytes(message, at, Rule::Signed),
        _ => crate::pass_number(Sort::Int, message, at),
    }
}

// A long, by the forms of the upper half first.
#[inline(always)]
pub fn pass_long(message: &[u8], at: usize) -> Result<NumberPassed, Refused>
    ensures { passed result ≡ number_at sort.Long message.now at }
{
    let b = byte_at(message, at)?;
    match b {
        0xd8..=0xef => compact::<0>(message, at, b - 0xd8, 8),
        0xf0..=0xff => compact::<1>(message, at, b - 0xf0, 0x800),
        _ => crate::pass_number(Sort::Long, message, at),
    }
}

// A long, by the forms of the lower half first.
#[inline(always)]
pub fn pass_wide_long(message: &[u8], at: usize) -> Result<NumberPassed, Refused>
    ensures { passed result ≡ number_at sort.Long message.now at }
{
    let b = byte_at(message, at)?;
    match b {
        0x38..=0x3f => compact::<2>(message, at, b - 0x38, 0x4_0000),
        0x59 => five_bytes(message, at, Rule::Signed),
        0x4c => nine_bytes(message, at),
        _ => crate::pass_number(Sort::Long, message, at),
    }
}

// A double, by its two widest forms first.
#[inline(always)]
pub fn pass_double(message: &[u8], at: usize) -> Result<NumberPassed, Refused>
    ensures { passed result ≡ number_at sort.Double message.now at }
{
    let b = byte_at(message, at)?;
    match b {
        0x44 => nine_bytes(message, at),
        0x5f => five_bytes(message, at, Rule::Float),
        _ => crate::pass_number(Sort::Double, message, at),
    }
}

// A date, by its form in milliseconds first.
#[inline(always)]
pub fn pass_date(message: &[u8], at: usize) -> Result<NumberPassed, Refused>
    ensures { passed result ≡ number_at sort.Date message.now at }
{
    let b = byte_at(message, at)?;
    match b {
        0x4a => nine_bytes(message, at),
        _ => crate::pass_number(Sort::Date, message, at),
    }
}
