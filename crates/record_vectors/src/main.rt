// Reads messages from standard input into a table, by the main rule and by that of thousandths, and prints a line for
// each.
//
// A case is a line: how many numbers are lent in the table, in decimal, and the message in groups, as vectors::groups
// takes them.
//
// The line printed has the answer: number, count and place, and the length of the record's shortest message; a sum over
// the lent table as it then is; and `ok` where all past the accepted rows, or the whole table after a refusal, is as it
// was; after `; ` the same by the rule of thousandths; and after another `; ` what the functions that answer the length
// alone say, by the main rule and by that of thousandths. What is no case is `bad`. vectors.py writes the cases, stdin,
// and what is to be printed, stdout.
#![tactic(auto)]

use reader::{Accepted, ReadError};
use record::ROW_NUMBERS;
use record::limits::LONGEST;
use scalar::{Refusal, Refused};
use std::io;
use std::io::{BufWriter, Read, Write};
use vectors::{After, Lines};

// The longest message that is looked at, longer than any that is accepted, and the most numbers lent.
const LARGEST: usize = LONGEST + 8_000;

const MOST: usize = 8_000;

// The most bytes of cases.
const MOST_INPUT: u64 = 400_000;

// How many numbers are lent in the table, and the message.
#[derive(Clone, Copy)]
struct Case<'a> {
    lent: usize,
    message: &'a [u8],
}

// The case that the line is, its message stored.
fn parse<'a>(line: &[u8], message: &'a mut [u8]) -> Option<Case<'a>> {
    let lent = vectors::decimal(line, 0)?;
    let end = vectors::groups(line, lent.next, message)?;
    if end.next != line.len() {
        return None;
    }
    Some(Case {
        lent: lent.value as usize,
        message: message.get(..end.size)?,
    })
}

// ---- answers

// An answer, and the table that it left. A refusal has no shortest message: its length is 0.
fn say_read(
    to: &mut impl Write,
    read: Result<Accepted, ReadError>,
    table: &[u64],
) -> io::Result<()> {
    let left = After {
        lent: table,
        from: 0,
    };
    match read {
        Ok(
            Accepted {
                rows,
                length,
                shortest,
            },
        ) => {
            let from = rows.saturating_mul(ROW_NUMBERS);
            write!(
                to,
                "0 {rows} {length} {shortest} {}",
                After { from, ..left }
            )
        }
        Err(ReadError::Refused(Refused { refusal, place })) => {
            write!(to, "{} 0 {place} 0 {left}", refusal.number())
        }
        Err(ReadError::TooFew { needed }) => {
            write!(to, "{} {needed} 0 0 {left}", Refusal::Room.number())
        }
    }
}

fn answer(to: &mut impl Write, message: &[u8], table: &mut [u64]) -> io::Result<()> {
    vectors::fill(table);
    let floats = reader::read(message, table);
    say_read(to, floats, table)?;
    write!(to, "; ")?;
    vectors::fill(table);
    let thousandths = reader::read_thousandths(message, table);
    say_read(to, thousandths, table)?;
    write!(
        to,
        "; {} {}",
        reader::shortest_length(message),
        reader::shortest_length_thousandths(message)
    )
}

fn answer_line(
    to: &mut impl Write,
    line: &[u8],
    message: &mut [u8],
    table: &mut [u64],
) -> io::Result<()> {
    let Some(Case { lent, message }) = parse(line, message) else {
        return write!(to, "bad");
    };
    let Some(table) = table.get_mut(..lent) else {
        return write!(to, "bad");
    };
    answer(to, message, table)
}

fn run_all(
    to: &mut impl Write,
    input: &[u8],
    message: &mut [u8],
    table: &mut [u64],
) -> io::Result<()> {
    for line in Lines::new(input) {
        answer_line(to, line, message, table)?;
        writeln!(to)?;
    }
    Ok(())
}

fn main(rt: HostRuntime) -> io::Result<()> {
    let mut input = Vec::new(rt.alloc());
    rt.stdin().take(MOST_INPUT).read_to_end(&mut input)?;
    let mut message = [0u8; LARGEST];
    let mut table = [0u64; MOST];
    let mut to = BufWriter::new(rt.alloc(), rt.stdout())?;
    run_all(&mut to, &input, &mut message, &mut table)?;
    to.flush()
}
