// How many bytes the shortest form of a value takes; 0 where it is no value of its kind, as number_length promises. The
// longest forms are tried first, since most values are written in their shortest.
ghost use Rattle.std.specs.Prelude.{◌≡◌, ◌^◌, ◌<◌};
ghost use Rattle.std.specs.Int.{w16};
ghost use Rattle.std.proofs.Common.{to_z};
ghost use Rattle.scalar.specs.declared.Sort.TheVariants as sort;
ghost use Rattle.scalar.specs.Scalars.{forms_of, shortest, whole as whole_of};
ghost use Rattle.scalar.specs.Answers.{length_of};
ghost use Rattle.numbers.specs.Answers.{HasCodes, Within, single_form};

use crate::stores::{Codes, INT_CODES, LONG_CODES};
use crate::{doubles, signed};

// ---- ints and longs

// Of those that a form of up to five bytes holds.
fn whole_length(codes: Codes, value: u64) -> usize
    requires { HasCodes codes × Within 0x8000_0000 value }
    ensures { result ≡ length_of (shortest (forms_of codes.sort) value) }
{
    if !signed::within(value, 0x4_0000) {
        5
    } else if !signed::within(value, 0x800) {
        3
    } else if value.wrapping_add(codes.zero) < codes.count {
        1
    } else {
        2
    }
}

pub(crate) fn int_length(value: u64) -> usize
    ensures { result ≡ length_of (shortest (forms_of sort.Int) value) }
{
    if signed::within(value, 0x8000_0000) {
        whole_length(INT_CODES, value)
    } else {
        0
    }
}

pub(crate) fn long_length(value: u64) -> usize
    ensures { result ≡ length_of (shortest (forms_of sort.Long) value) }
{
    if signed::within(value, 0x8000_0000) {
        whole_length(LONG_CODES, value)
    } else {
        9
    }
}

// ---- doubles

// The double that is the whole number of 16 bits u, by its two's complement: 0 and 1, those of 8 bits, others.
fn pair_length(u: u64) -> usize
    requires { u < 2 ^ 16 }
    ensures { result ≡ length_of (shortest (forms_of sort.Double) (whole_of (to_z w16 u))) }
{
    match u {
        0..=1 => 1,
        0x80..=0xff7f => 3,
        _ => 2,
    }
}

// A double, form by form.
fn double_by_forms(value: u64) -> usize
    ensures { result ≡ length_of (shortest (forms_of sort.Double) value) }
{
    let u = doubles::whole_guess(0x1_0000, value);
    if doubles::whole_pair(u) == value {
        pair_length(u)
    } else if doubles::widened(doubles::narrowed(value) as u32) == value {
        5
    } else {
        9
    }
}

// A double. Those of the shorter forms are multiples of 2 ^ 29.
pub(crate) fn double_length(value: u64) -> usize
    ensures { result ≡ length_of (shortest (forms_of sort.Double) value) }
{
    if value % 0x2000_0000 == 0 {
        double_by_forms(value)
    } else {
        9
    }
}

// ---- others

// A date. No test of its lowest bits comes first: the eight bytes would then be loaded one by one.
pub(crate) fn date_length(value: u64) -> usize
    ensures { result ≡ length_of (shortest (forms_of sort.Date) value) }
{
    if signed::milliseconds(signed::minutes(value)) == value {
        5
    } else {
        9
    }
}

// Null, false or true, of this code.
pub(crate) fn single_length(code: u8, value: u64) -> usize
    ensures { result ≡ length_of (shortest (single_form code) value) }
{
    if value == 0 { 1 } else { 0 }
}
