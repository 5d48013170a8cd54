// Single values: reading one at a place, and the shortest form of each. The definitions are in scalar's
// specs/Scalars.antt.
#![tactic(auto)]

pub mod chart;
pub mod direct;
pub mod doubles;
mod lengths;
pub(crate) mod signed;
pub mod stores;

ghost use Rattle.std.specs.Prelude.{◌≡◌, ◌<◌, ◌≤◌, [], ◌∷◌, length, Some, MatchOption};
ghost use Rattle.std.proofs.Math.Option.{none};
ghost use Rattle.scalar.specs.declared.Rule.TheVariants as Rule;
ghost use Rattle.scalar.specs.declared.Sort.TheVariants as Sort;
ghost use Rattle.scalar.specs.Scalars.{value as value_of, form, forms_of, begun as begun_of, form_at, shortest};
ghost use Rattle.scalar.specs.Guesses.{guess as guessOf};
ghost use Rattle.scalar.specs.Answers.{number_at, length_of, report, report_of, output_of};
ghost use Rattle.numbers.specs.Answers.{passed, Measured, NumberMet, ByteThere, Followed, cut_at, Takes, Good, spelled};
ghost use Rattle.numbers.specs.Answers.{whole_forms, HasCodes};
ghost use Rattle.scalar.specs.NumberLaws.{tried};

use crate::stores::{Codes, INT_CODES, LONG_CODES};
use scalar::{Begun, Refusal, Refused, Rule, Sort, Unwritten};

// What passing a value at a place finds: the value and the bytes that it takes.
#[derive(Clone, Copy, PartialEq, Eq)]
pub struct NumberPassed {
    pub value: u64,
    pub size: usize,
}

// What reading a value at a place finds: the value, the bytes that it takes and those of its shortest form.
#[derive(Clone, Copy, PartialEq, Eq)]
pub struct NumberRead {
    pub value: u64,
    pub size: usize,
    pub shortest: usize,
}

// A form's first byte, and the lowest `more` bytes of `rest` after it.
#[derive(Clone, Copy)]
pub(crate) struct Spelling {
    pub code: u8,
    pub more: usize,
    pub rest: u64,
}

// ---- reading

// The message ends where a byte is needed.
fn cut(message: &[u8]) -> Refused
    ensures { result ≡ cut_at (length message.now) }
{
    Refused {
        refusal: Refusal::Cut,
        place: message.len(),
    }
}

// The byte at `at`.
#[inline(always)]
fn byte_at(message: &[u8], at: usize) -> Result<u8, Refused>
    ensures { ByteThere message.now at result }
{
    if message.len() <= at {
        return Err(cut(message));
    }
    Ok(message[at])
}

// Whether `more` bytes follow the one at `at`.
#[inline(always)]
fn followed(message: &[u8], at: usize, more: usize) -> Result<(), Refused>
    requires { at ≤ length message.now }
    ensures { Followed message.now at more result }
{
    if message.len() - at <= more {
        return Err(cut(message));
    }
    Ok(())
}

// What a form begins: so many bytes follow, after what the first one holds, and make a number for this rule.
fn begun(more: usize, held: u64, rule: Rule) -> Option<Begun>
    ensures { result ≡ Some (begun_of more held rule) }
{
    Some(Begun { more, held, rule })
}

// What the byte begins, where only `code` begins a form.
fn single_form(code: u8, value: u64, b: u8) -> Option<Begun>
    ensures { result ≡ form_at (form code 1 0 (Rule.Exactly value) ∷ []) b }
{
    if b == code {
        begun(0, 0, Rule::Exactly(value))
    } else {
        None
    }
}

fn int_form(b: u8) -> Option<Begun>
    ensures { result ≡ form_at (forms_of Sort.Int) b }
{
    let w = u64::from(b);
    match b {
        0x80..=0xbf => begun(0, w - 0x80, Rule::Offset(0x10)),
        0xc0..=0xcf => begun(1, w - 0xc0, Rule::Offset(0x800)),
        0xd0..=0xd7 => begun(2, w - 0xd0, Rule::Offset(0x4_0000)),
        0x49 => begun(4, 0, Rule::Signed),
        _ => None,
    }
}

fn long_form(b: u8) -> Option<Begun>
    ensures { result ≡ form_at (forms_of Sort.Long) b }
{
    let w = u64::from(b);
    match b {
        0xd8..=0xef => begun(0, w - 0xd8, Rule::Offset(8)),
        0xf0..=0xff => begun(1, w - 0xf0, Rule::Offset(0x800)),
        0x38..=0x3f => begun(2, w - 0x38, Rule::Offset(0x4_0000)),
        0x59 => begun(4, 0, Rule::Signed),
        0x4c => begun(8, 0, Rule::Plain),
        _ => None,
    }
}

fn double_form(b: u8) -> Option<Begun>
    ensures { result ≡ form_at (forms_of Sort.Double) b }
{
    match b {
        0x5b => begun(0, 0, Rule::Exactly(0)),
        0x5c => begun(0, 0, Rule::Exactly(0x3ff0_0000_0000_0000)),
        0x5d => begun(1, 0, Rule::WholeByte),
        0x5e => begun(2, 0, Rule::WholePair),
        0x5f => begun(4, 0, Rule::Float),
        0x44 => begun(8, 0, Rule::Plain),
        _ => None,
    }
}

fn date_form(b: u8) -> Option<Begun>
    ensures { result ≡ form_at (forms_of Sort.Date) b }
{
    match b {
        0x4b => begun(4, 0, Rule::Minutes),
        0x4a => begun(8, 0, Rule::Plain),
        _ => None,
    }
}

// What the byte begins, as a value of this kind.
fn form_at(sort: Sort, b: u8) -> Option<Begun>
    ensures { result ≡ form_at (forms_of sort) b }
{
    match sort {
        Sort::Null => single_form(0x4e, 0, b),
        Sort::False => single_form(0x46, 0, b),
        Sort::True => single_form(0x54, 0, b),
        Sort::Int => int_form(b),
        Sort::Long => long_form(b),
        Sort::Double => double_form(b),
        Sort::Date => date_form(b),
    }
}

// The value that a form stands for, where its bytes hold u.
#[inline(always)]
fn value_of(rule: Rule, u: u64) -> u64
    requires { Takes rule u }
    ensures { result ≡ value_of rule u }
{
    match rule {
        Rule::Exactly(v) => v,
        Rule::Plain => u,
        Rule::Offset(k) => signed::less(u, k),
        Rule::Signed => signed::signed_32(u).cast_unsigned(),
        Rule::Minutes => signed::milliseconds(u),
        Rule::WholeByte => doubles::whole_byte(u),
        Rule::WholePair => doubles::whole_pair(u),
        Rule::Float => doubles::widened(u as u32),
    }
}

// The value of this kind at the place `at` of the message, which is not measured. It stays out of the loops that pass
// the usual forms directly.
#[inline(never)]
pub fn pass_number(sort: Sort, message: &[u8], at: usize) -> Result<NumberPassed, Refused>
    ensures { passed result ≡ number_at sort message.now at }
{
    let b = byte_at(message, at)?;
    let Some(begun) = form_at(sort, b) else {
        return Err(Refused {
            refusal: Refusal::Byte,
            place: at,
        });
    };
    followed(message, at, begun.more)?;
    let u = wire::number_at(message, at + 1, begun.more, begun.held);
    Ok(NumberPassed {
        value: value_of(begun.rule, u),
        size: begun.more + 1,
    })
}

// A value of this kind as it was passed, with the length of its shortest form.
pub fn measured(sort: Sort, passed: Result<NumberPassed, Refused>) -> Result<NumberRead, Refused>
    ensures { Measured sort passed result }
{
    let NumberPassed { value, size } = passed?;
    Ok(NumberRead {
        value,
        size,
        shortest: number_length(sort, value),
    })
}

// The value of this kind at the place `at` of the message.
pub fn read_number(sort: Sort, message: &[u8], at: usize) -> Result<NumberRead, Refused>
    ensures { NumberMet sort message.now at result }
{
    measured(sort, pass_number(sort, message, at))
}

// ---- the shortest form

// A number for a form to hold for v: it is right where it stands for v.
#[inline(always)]
fn guess(rule: Rule, v: u64) -> u64
    ensures { result ≡ guessOf rule v }
{
    match rule {
        Rule::Exactly(_) => 0,
        Rule::Plain => v,
        Rule::Offset(k) => v.wrapping_add(k),
        Rule::Signed => v % 0x1_0000_0000,
        Rule::Minutes => signed::minutes(v),
        Rule::WholeByte => doubles::whole_guess(0x100, v),
        Rule::WholePair => doubles::whole_guess(0x1_0000, v),
        Rule::Float => doubles::narrowed(v),
    }
}

// The form with these first bytes, so many bytes after them, and this rule, where it holds v.
#[inline(always)]
fn try_form(head: u8, codes: u64, more: usize, rule: Rule, v: u64) -> Option<Spelling>
    requires { Good (form head codes more rule) }
    ensures { spelled result ≡ tried (form head codes more rule) v none }
{
    let u = guess(rule, v);
    let top = u >> (8 * more);
    if top < codes && value_of(rule, u) == v {
        Some(Spelling {
            code: head + (top as u8),
            more,
            rest: u,
        })
    } else {
        None
    }
}

// The form of one first byte and all 8 bytes of v, which holds any value.
fn plain_form(head: u8, v: u64) -> Option<Spelling>
    ensures { spelled result ≡ tried (form head 1 8 Rule.Plain) v none }
{
    Some(Spelling {
        code: head,
        more: 8,
        rest: v,
    })
}

// ---- the forms of a kind in turn

// The forms that ints and longs share: compact ones of one, two and three bytes, and the one of 32 bits with a sign.
fn spell_whole(codes: Codes, v: u64) -> Option<Spelling>
    requires { HasCodes codes }
    ensures { spelled result ≡ shortest (whole_forms codes) v }
{
    try_form(codes.one, codes.count, 0, Rule::Offset(codes.zero), v)
        .or_else(|| try_form(codes.two, 16, 1, Rule::Offset(0x800), v))
        .or_else(|| try_form(codes.three, 8, 2, Rule::Offset(0x4_0000), v))
        .or_else(|| try_form(codes.five, 1, 4, Rule::Signed, v))
}

fn spell_int(v: u64) -> Option<Spelling>
    ensures { spelled result ≡ shortest (forms_of Sort.Int) v }
{
    spell_whole(INT_CODES, v)
}

fn spell_long(v: u64) -> Option<Spelling>
    ensures { spelled result ≡ shortest (forms_of Sort.Long) v }
{
    spell_whole(LONG_CODES, v).or(plain_form(0x4c, v))
}

fn spell_double(v: u64) -> Option<Spelling>
    ensures { spelled result ≡ shortest (forms_of Sort.Double) v }
{
    try_form(0x5b, 1, 0, Rule::Exactly(0), v)
        .or_else(|| try_form(0x5c, 1, 0, Rule::Exactly(0x3ff0_0000_0000_0000), v))
        .or_else(|| try_form(0x5d, 1, 1, Rule::WholeByte, v))
        .or_else(|| try_form(0x5e, 1, 2, Rule::WholePair, v))
        .or_else(|| try_form(0x5f, 1, 4, Rule::Float, v))
        .or(plain_form(0x44, v))
}

fn spell_date(v: u64) -> Option<Spelling>
    ensures { spelled result ≡ shortest (forms_of Sort.Date) v }
{
    try_form(0x4b, 1, 4, Rule::Minutes, v).or(plain_form(0x4a, v))
}

// The shortest form of the value v of this kind.
fn spell(sort: Sort, v: u64) -> Option<Spelling>
    ensures { spelled result ≡ shortest (forms_of sort) v }
{
    match sort {
        Sort::Null => try_form(0x4e, 1, 0, Rule::Exactly(0), v),
        Sort::False => try_form(0x46, 1, 0, Rule::Exactly(0), v),
        Sort::True => try_form(0x54, 1, 0, Rule::Exactly(0), v),
        Sort::Int => spell_int(v),
        Sort::Long => spell_long(v),
        Sort::Double => spell_double(v),
        Sort::Date => spell_date(v),
    }
}

// How many bytes the shortest form of the value takes; 0, and not None, where it is no value of this kind, since so its
// promise says (length_of), and lengths are added up.
pub fn number_length(sort: Sort, value: u64) -> usize
    ensures { result ≡ length_of (shortest (forms_of sort) value) }
{
    match sort {
        Sort::Null => lengths::single_length(0x4e, value),
        Sort::False => lengths::single_length(0x46, value),
        Sort::True => lengths::single_length(0x54, value),
        Sort::Int => lengths::int_length(value),
        Sort::Long => lengths::long_length(value),
        Sort::Double => lengths::double_length(value),
        Sort::Date => lengths::date_length(value),
    }
}

// The shortest form of the value in `out` from `at` on, where it fits: each form is tried in turn. How many bytes it
// has.
#[inline(never)]
fn put_form(sort: Sort, value: u64, out: &mut [u8], at: usize) -> Option<usize>
    ensures { MatchOption result (shortest (forms_of sort) value ≡ none)
        (λ n. (0 < n) × (n ≡ length_of (shortest (forms_of sort) value)))
        × (out.new ≡ output_of (shortest (forms_of sort) value) out.old at) }
{
    let spelling = spell(sort, value)?;
    stores::store_spelling(out, at, spelling);
    Some(spelling.more + 1)
}

// The shortest form of the value in `out` from `at` on, where it fits. How many bytes it has, whether they fit or not;
// None, where it is no value of this kind.
#[inline(always)]
pub fn put_number(sort: Sort, value: u64, out: &mut [u8], at: usize) -> Option<usize>
    ensures { MatchOption result (shortest (forms_of sort) value ≡ none)
        (λ n. (0 < n) × (n ≡ length_of (shortest (forms_of sort) value)))
        × (out.new ≡ output_of (shortest (forms_of sort) value) out.old at) }
{
    match sort {
        Sort::Null => stores::put_single(0x4e, value, out, at),
        Sort::False => stores::put_single(0x46, value, out, at),
        Sort::True => stores::put_single(0x54, value, out, at),
        Sort::Int => stores::put_int(value, out, at),
        Sort::Long => stores::put_long(value, out, at),
        Sort::Double => stores::put_double(value, out, at),
        Sort::Date => stores::put_date(value, out, at),
    }
}

// The shortest form of the value in `out` from `at` on: stored whole or not at all.
pub fn write_number(sort: Sort, value: u64, out: &mut [u8], at: usize) -> Result<usize, Unwritten>
    ensures { (report result ≡ report_of (shortest (forms_of sort) value) (length out.old) at)
        × (out.new ≡ output_of (shortest (forms_of sort) value) out.old at) }
{
    let size = put_number(sort, value, out, at).ok_or(Unwritten::NoSuchForm)?;
    stores::room(out, at, size)?;
    Ok(size)
}
