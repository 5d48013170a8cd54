// Reads a message from standard input, and prints its record: a line for each row, five unsigned decimals with one
// space between. A message that is not accepted prints one line, `refused`, number and place. More than 60,000 bytes
// are refusal 1; more than 1,600 rows are refusal 9.
#![tactic(auto)]

use reader::{Accepted, ReadError};
use record::ROW_NUMBERS;
use scalar::{Refusal, Refused};
use std::io;
use std::io::{BufWriter, Read, Write};

// The most bytes of a message.
const MOST: usize = 60_000;

// The numbers of 1,600 rows.
const TABLE: usize = 1_600 * ROW_NUMBERS;

fn say_refused(to: &mut impl Write, refusal: Refusal, place: usize) -> io::Result<()> {
    writeln!(to, "refused {} {place}", refusal.number())
}

// The first `count` rows of the table.
fn say_rows(to: &mut impl Write, table: &[u64], count: usize) -> io::Result<()> {
    let (rows, _) = table.as_chunks::<ROW_NUMBERS>();
    for [kind, place, first, second, after] in rows.iter().take(count) {
        writeln!(to, "{kind} {place} {first} {second} {after}")?;
    }
    Ok(())
}

fn print_rows(to: &mut impl Write, message: &[u8]) -> io::Result<()> {
    let mut table = [0u64; TABLE];
    match reader::read(message, &mut table) {
        Ok(Accepted { rows, .. }) => say_rows(to, &table, rows),
        Err(ReadError::Refused(Refused { refusal, place })) => say_refused(to, refusal, place),
        Err(ReadError::TooFew { .. }) => say_refused(to, Refusal::Room, 0),
    }
}

fn main(rt: HostRuntime) -> io::Result<()> {
    let mut input = Vec::new(rt.alloc());
    // One byte more than a message has at most.
    rt.stdin().take(60_001).read_to_end(&mut input)?;
    let mut to = BufWriter::new(rt.alloc(), rt.stdout())?;
    if MOST < input.len() {
        say_refused(&mut to, Refusal::Length, 0)?;
    } else {
        print_rows(&mut to, &input)?;
    }
    to.flush()
}
