// What a record is, how a message reads, its shortest message, and what the theorems say stand in specs/, the laws and
// the proofs in proofs/: theory, the limits, the kinds of rows, the tables and the types that code shares, and what is
// known.
#![tactic(auto)]

pub mod kinds;
pub mod known;
pub mod limits;
pub mod tables;

// How the values of a list, map or object are counted: so many elements; the fields of an object, with its class and
// how many; elements up to 5a; keys and values up to 5a.
#[derive(Clone, Copy)]
pub enum Group {
    Counted(u64),
    Fields(u64, u64),
    Open,
    Pairs,
}

// What a list, map or object holds, as the writer counts it: so many elements or fields; so many keys, each with its
// value.
#[derive(Clone, Copy)]
pub enum Contents {
    Elements(u64),
    Couples(u64),
}

// A row of a table. `after` is the number of the row just after the value, definition or single item that the row
// opens. The kind stays a number, not a Kind: a lent table may hold any, as the C interface has it.
#[derive(Clone, Copy)]
pub struct Row {
    pub kind: u64,
    pub place: u64,
    pub first: u64,
    pub second: u64,
    pub after: u64,
}

// So many numbers has a row in a table of numbers.
pub const ROW_NUMBERS: usize = 5;

// So many bytes has a row in a table of bytes.
pub const ROW_BYTES: usize = 40;
