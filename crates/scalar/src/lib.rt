// The types that the definitions of single values, texts and byte strings share with the code, and the numbers of
// refusals.
#![tactic(auto)]

pub mod refusals;

pub use refusals::{Refusal, Refused};

// A kind of single value.
#[derive(Clone, Copy, PartialEq, Eq)]
pub enum Sort {
    Null,
    False,
    True,
    Int,
    Long,
    Double,
    Date,
}

// What a first byte opens; 5a only closes, and four bytes open nothing.
#[derive(Clone, Copy)]
pub enum Lead {
    Number(Sort),
    Text,
    Bytes,
    List,
    TypedList,
    Map,
    TypedMap,
    Object,
    Reference,
    Definition,
    Close,
    Reserved,
}

// What a form's bytes stand for, by the number that they hold.
#[derive(Clone, Copy)]
pub enum Rule {
    // This value, whatever they hold.
    Exactly(u64),
    // The number itself.
    Plain,
    // The number less this one.
    Offset(u64),
    // The number as one of 32 bits with a sign.
    Signed,
    // So many minutes, with a sign, in milliseconds.
    Minutes,
    // The double of a whole number of 8 bits, with a sign.
    WholeByte,
    // The double of a whole number of 16 bits, with a sign.
    WholePair,
    // The double that a float of 32 bits is.
    Float,
}

// What a first byte begins: how many bytes follow, what it holds itself, and the rule for the number in all.
#[derive(Clone, Copy)]
pub struct Begun {
    pub more: usize,
    pub held: u64,
    pub rule: Rule,
}

// What a string holds: characters in UTF-8, or bytes.
#[derive(Clone, Copy, PartialEq, Eq)]
pub enum Encoding {
    Utf8,
    Binary,
}

// A character's first byte: how many bytes follow, and from where to below where the first of those lies. A
// supplementary character has three, and counts two units. Halved is ed, after which the second byte tells a character
// of three bytes from a half.
#[derive(Clone, Copy)]
pub enum CharLead {
    Basic { more: usize, from: u8, below: u8 },
    Supplementary { from: u8, below: u8 },
    Halved,
    NoChar,
}

// Why a shortest form is not stored: it does not fit, and needs so many bytes; or there is no such form.
#[derive(Clone, Copy, PartialEq, Eq)]
pub enum Unwritten {
    NoRoom { needed: usize },
    NoSuchForm,
}
