// Single values stored form by form, by plain stores: what put_form stores. By put_form alone was tried: it takes one
// and a half to three times the instructions. A form is stored whole or not at all. The answer is how many bytes it has,
// also where they do not fit: a Result that says which takes callers longer, since Ok's number and Err's case lie in one
// place.
ghost use Rattle.std.specs.Prelude.{◌≡◌, ◌+◌, ◌^◌, ◌<◌, ◌≤◌, ◌∷◌, length, MatchOption};
ghost use Rattle.std.proofs.Math.Option.{none};
ghost use Rattle.flow.specs.Flow.{stored};
ghost use Rattle.wire.specs.BigEndian.{be};
ghost use Rattle.scalar.specs.declared.Sort.TheVariants as sort;
ghost use Rattle.scalar.specs.Scalars.{forms_of, shortest};
ghost use Rattle.scalar.specs.Answers.{length_of, output_of};
ghost use Rattle.numbers.specs.Answers.{single_form, HasRoom, HasCodes};

use crate::{Spelling, signed};
use scalar::{Sort, Unwritten};

// The forms that ints and longs have of one, two, three and five bytes, by their lowest codes; of those of one byte how
// many there are, and what they hold for the value 0. That they are the kind's own (HasCodes) stays a clause: a ghost
// field is no plainer, since it needs a proof that two proofs of an equation of lists of forms are equal.
#[derive(Clone, Copy)]
pub(crate) struct Codes {
    pub sort: Sort,
    pub one: u8,
    pub count: u64,
    pub zero: u64,
    pub two: u8,
    pub three: u8,
    pub five: u8,
}

pub(crate) const INT_CODES: Codes = Codes {
    sort: Sort::Int,
    one: 0x80,
    count: 64,
    zero: 0x10,
    two: 0xc0,
    three: 0xd0,
    five: 0x49,
};

pub(crate) const LONG_CODES: Codes = Codes {
    sort: Sort::Long,
    one: 0xd8,
    count: 24,
    zero: 8,
    two: 0xf0,
    three: 0x38,
    five: 0x59,
};

// ---- bytes

// Whether `needed` bytes fit from `at` on.
#[inline(always)]
pub(crate) fn room(out: &[u8], at: usize, needed: usize) -> Result<(), Unwritten>
    ensures { HasRoom (length out.now) at needed result }
{
    if out.len() < at || out.len() - at < needed {
        return Err(Unwritten::NoRoom { needed });
    }
    Ok(())
}

// These bytes, where they fit.
#[inline(always)]
fn store<const N: usize>(out: &mut [u8], at: usize, bytes: [u8; N])
    ensures { out.new ≡ stored out.old at bytes.entry }
{
    if let Ok(()) = room(out, at, N) {
        out[at..at + N].copy_from_slice(&bytes);
    }
}

// A byte, and the four bytes of v, where they fit.
#[inline(always)]
fn store_five(out: &mut [u8], at: usize, code: u8, v: u32)
    ensures { out.new ≡ stored out.old at (code ∷ be 4 v) }
{
    if let Ok(()) = room(out, at, 5) {
        out[at] = code;
        out[at + 1..at + 5].copy_from_slice(&v.to_be_bytes());
    }
}

// A byte, and the eight bytes of v, where they fit.
#[inline(always)]
fn store_nine(out: &mut [u8], at: usize, code: u8, v: u64)
    ensures { out.new ≡ stored out.old at (code ∷ be 8 v) }
{
    if let Ok(()) = room(out, at, 9) {
        out[at] = code;
        out[at + 1..at + 9].copy_from_slice(&v.to_be_bytes());
    }
}

// A form's bytes, where they fit.
pub(crate) fn store_spelling(out: &mut [u8], at: usize, form: Spelling)
    requires { form.more ≤ 8 }
    ensures { out.new ≡ stored out.old at (form.code ∷ be form.more form.rest) }
{
    if let Ok(()) = room(out, at, form.more + 1) {
        out[at] = form.code;
        let _ = wire::store_number(out, at + 1, form.more, form.rest);
    }
}

// ---- values, each by the forms that its function is for; others by whichever form is the shortest

// Null, false or true.
#[inline(always)]
pub(crate) fn put_single(code: u8, value: u64, out: &mut [u8], at: usize) -> Option<usize>
    ensures { MatchOption result (shortest (single_form code) value ≡ none)
        (λ n. (0 < n) × (n ≡ length_of (shortest (single_form code) value)))
        × (out.new ≡ output_of (shortest (single_form code) value) out.old at) }
{
    if value != 0 {
        return None;
    }
    store(out, at, [code]);
    Some(1)
}

// An int or a long, by the forms of one, two, three and five bytes first.
#[inline(always)]
fn put_whole(codes: Codes, value: u64, out: &mut [u8], at: usize) -> Option<usize>
    requires { HasCodes codes }
    ensures { MatchOption result (shortest (forms_of codes.sort) value ≡ none)
        (λ n. (0 < n) × (n ≡ length_of (shortest (forms_of codes.sort) value)))
        × (out.new ≡ output_of (shortest (forms_of codes.sort) value) out.old at) }
{
    let u = value.wrapping_add(codes.zero);
    if u < codes.count {
        store(out, at, [codes.one + u as u8]);
        return Some(1);
    }
    let u = value.wrapping_add(0x800);
    if u < 0x1000 {
        store(out, at, [codes.two + (u / 256) as u8, (u % 256) as u8]);
        return Some(2);
    }
    let u = value.wrapping_add(0x4_0000);
    if u < 0x8_0000 {
        let h = u / 256;
        let code = codes.three + (h / 256) as u8;
        store(out, at, [code, (h % 256) as u8, (u % 256) as u8]);
        return Some(3);
    }
    if signed::within(value, 0x8000_0000) {
        store_five(out, at, codes.five, (value % 0x1_0000_0000) as u32);
        return Some(5);
    }
    crate::put_form(codes.sort, value, out, at)
}

// An int.
#[inline(always)]
pub fn put_int(value: u64, out: &mut [u8], at: usize) -> Option<usize>
    ensures { MatchOption result (shortest (forms_of sort.Int) value ≡ none)
        (λ n. (0 < n) × (n ≡ length_of (shortest (forms_of sort.Int) value)))
        × (out.new ≡ output_of (shortest (forms_of sort.Int) value) out.old at) }
{
    put_whole(INT_CODES, value, out, at)
}

// A long. Those of the shorter forms have 32 bits.
#[inline(always)]
pub(crate) fn put_long(value: u64, out: &mut [u8], at: usize) -> Option<usize>
    ensures { MatchOption result (shortest (forms_of sort.Long) value ≡ none)
        (λ n. (0 < n) × (n ≡ length_of (shortest (forms_of sort.Long) value)))
        × (out.new ≡ output_of (shortest (forms_of sort.Long) value) out.old at) }
{
    if signed::within(value, 0x8000_0000) {
        return put_whole(LONG_CODES, value, out, at);
    }
    store_nine(out, at, 0x4c, value);
    Some(9)
}

// A double. Those of the shorter forms are multiples of 2 ^ 29.
#[inline(always)]
pub(crate) fn put_double(value: u64, out: &mut [u8], at: usize) -> Option<usize>
    ensures { MatchOption result (shortest (forms_of sort.Double) value ≡ none)
        (λ n. (0 < n) × (n ≡ length_of (shortest (forms_of sort.Double) value)))
        × (out.new ≡ output_of (shortest (forms_of sort.Double) value) out.old at) }
{
    if value % 0x2000_0000 == 0 {
        return crate::put_form(Sort::Double, value, out, at);
    }
    store_nine(out, at, 0x44, value);
    Some(9)
}

// A date. Whole minutes are multiples of 32 milliseconds.
#[inline(always)]
pub(crate) fn put_date(value: u64, out: &mut [u8], at: usize) -> Option<usize>
    ensures { MatchOption result (shortest (forms_of sort.Date) value ≡ none)
        (λ n. (0 < n) × (n ≡ length_of (shortest (forms_of sort.Date) value)))
        × (out.new ≡ output_of (shortest (forms_of sort.Date) value) out.old at) }
{
    if value % 32 == 0 {
        return crate::put_form(Sort::Date, value, out, at);
    }
    store_nine(out, at, 0x4a, value);
    Some(9)
}
