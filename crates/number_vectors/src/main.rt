// Runs the functions on single values over cases from standard input, and prints a line for each case.
//
// A case is a line of 24 hexadecimal digits: a byte that is 16 times the operation and the sort, by its row's kind; a
// byte n; and ten bytes of data.
//   0 read: the first n bytes of data are a message. The value at its start, its size and the length of its shortest
//   form, or the refusal's number and place; and `differs` where a function of numbers::direct answers otherwise.
//   1 write: the first 8 bytes of data are a value. Its shortest form or `none`, its length, and what storing it keeps.
//   2 chart: the first byte of data is a first byte. Its entry.
//   3 read at: as 0, at the place that is the last byte of data.
// Anything else is `bad`. vectors.py writes the cases, stdin, and what is to be printed, stdout.
#![tactic(auto)]

use numbers::{NumberPassed, NumberRead, direct};
use scalar::{Refused, Sort, Unwritten};
use std::io::{BufWriter, Read, Write};
use std::{fmt, io};
use vectors::Hex;

// What a buffer holds before anything is stored.
const BLANK: u8 = 0xee;

// How much is read of standard input.
const LONGEST: u64 = 0x2_0000;

// Where the value is stored in a larger buffer.
const PLACE: usize = 3;

// How long a line is, with its newline.
const LINE: usize = 25;

// ---- reading

// What reading a value answers.
#[derive(Clone, Copy)]
struct Answer(Result<NumberRead, Refused>);

impl fmt::Display for Answer {
    fn fmt<W: fmt::Write>(&self, f: &mut fmt::Formatter<W>) -> fmt::Result {
        match self.0 {
            Ok(
                NumberRead {
                    value,
                    size,
                    shortest,
                },
            ) => write!(f, "{value:016x} {size} {shortest}"),
            Err(Refused { refusal, place }) => write!(f, "refused {} {place}", refusal.number()),
        }
    }
}

// Whether the functions of numbers::direct for this sort say the same.
fn same_directly(read: Result<NumberRead, Refused>, sort: Sort, message: &[u8], at: usize) -> bool {
    let same = |passed: Result<NumberPassed, Refused>| numbers::measured(sort, passed) == read;
    match sort {
        Sort::Int => same(direct::pass_int(message, at))
            && same(direct::pass_wide_int(message, at)),
        Sort::Long => same(direct::pass_long(message, at))
            && same(direct::pass_wide_long(message, at)),
        Sort::Double => same(direct::pass_double(message, at)),
        Sort::Date => same(direct::pass_date(message, at)),
        Sort::Null | Sort::False | Sort::True => same(direct::pass_single(sort, message, at)),
    }
}

// The value at the place `at` of the message that is the first n bytes of data.
fn read_case(to: &mut impl Write, sort: Sort, data: &[u8], n: usize, at: usize) -> io::Result<()> {
    let Some(message) = data.get(..n) else {
        return write!(to, "bad");
    };
    let read = numbers::read_number(sort, message, at);
    write!(to, "{}", Answer(read))?;
    if !same_directly(read, sort, message, at) {
        write!(to, " differs")?;
    }
    Ok(())
}

// ---- writing

fn blank(bytes: &[u8]) -> bool {
    bytes.iter().all(|b| *b == BLANK)
}

// Storing the value at `at` where only `lent` bytes are lent is refused as it should be, and changes nothing.
fn refused(sort: Sort, value: u64, length: usize, at: usize, lent: usize) -> bool {
    let mut out = [BLANK; 16];
    let Some(part) = out.get_mut(..lent) else {
        return false;
    };
    let written = numbers::write_number(sort, value, part, at);
    let due = if length == 0 {
        Unwritten::NoSuchForm
    } else {
        Unwritten::NoRoom { needed: length }
    };
    written == Err(due) && blank(&out)
}

// One byte short at the start and further on; and where the place lies past the end.
fn all_refused(sort: Sort, value: u64, length: usize) -> bool {
    let lent = length.saturating_sub(1);
    refused(sort, value, length, 0, lent)
        && refused(sort, value, length, PLACE, PLACE.saturating_add(lent))
        && refused(sort, value, length, PLACE, PLACE - 1)
}

// The value and its size, which is the length of its shortest form, are read again.
fn read_again(sort: Sort, value: u64, length: usize, out: &[u8]) -> bool {
    numbers::read_number(sort, out, PLACE)
        == Ok(NumberRead {
            value,
            size: length,
            shortest: length,
        })
}

// The value's shortest form, stored in a larger buffer, and what was kept.
fn write_case(to: &mut impl Write, sort: Sort, value: u64) -> io::Result<()> {
    let length = numbers::number_length(sort, value);
    let mut out = [BLANK; 16];
    let stored = match numbers::write_number(sort, value, &mut out, PLACE) {
        Ok(size) => Some(size),
        Err(Unwritten::NoSuchForm) => None,
        Err(Unwritten::NoRoom { needed: _ }) => return write!(to, "no room"),
    };
    let (before, rest) = out.split_at(PLACE);
    let (form, after) = rest.split_at(stored.unwrap_or(0).min(rest.len()));
    match stored {
        Some(_) => write!(to, "{} {length}", Hex(form))?,
        None => write!(to, "none {length}")?,
    }
    if all_refused(sort, value, length) {
        write!(to, " short ok")?;
    }
    if blank(before) && blank(after) {
        write!(to, " rest ok")?;
    }
    if stored.is_some() && read_again(sort, value, length, &out) {
        write!(to, " back ok")?;
    }
    Ok(())
}

// ---- cases

fn sort_of(kind: u8) -> Option<Sort> {
    match kind {
        0 => Some(Sort::Null),
        1 => Some(Sort::False),
        2 => Some(Sort::True),
        3 => Some(Sort::Int),
        4 => Some(Sort::Long),
        5 => Some(Sort::Double),
        6 => Some(Sort::Date),
        _ => None,
    }
}

// The bytes that a line of 24 digits is, two digits a byte.
fn parse(line: &[u8]) -> Option<[u8; 12]> {
    let digits = line.strip_suffix(b"\n")?;
    if digits.len() != 24 {
        return None;
    }
    let (pairs, _) = digits.as_chunks::<2>();
    let mut bytes = [0u8; 12];
    for (i, byte) in bytes.iter_mut().enumerate() {
        let [high, low] = pairs[i];
        *byte = vectors::digit(high)? * 16 + vectors::digit(low)?;
    }
    Some(bytes)
}

fn run(to: &mut impl Write, case: &[u8; 12]) -> io::Result<()> {
    let Some(sort) = sort_of(case[0] % 16) else {
        return write!(to, "bad");
    };
    let n = usize::from(case[1]);
    let data = &case[2..];
    match case[0] / 16 {
        0 => read_case(to, sort, data, n, 0),
        1 => write_case(to, sort, wire::number_at(data, 0, 8, 0)),
        2 => write!(to, "{}", numbers::chart::entry(data[0])),
        3 => read_case(to, sort, data, n, usize::from(data[9])),
        _ => write!(to, "bad"),
    }
}

fn run_all(to: &mut impl Write, input: &[u8]) -> io::Result<()> {
    for line in input.chunks(LINE) {
        match parse(line) {
            Some(case) => run(to, &case)?,
            None => write!(to, "bad")?,
        }
        writeln!(to)?;
    }
    Ok(())
}

fn main(rt: HostRuntime) -> io::Result<()> {
    let mut input = Vec::new(rt.alloc());
    rt.stdin().take(LONGEST).read_to_end(&mut input)?;
    let mut to = BufWriter::new(rt.alloc(), rt.stdout())?;
    run_all(&mut to, &input)?;
    to.flush()
}
