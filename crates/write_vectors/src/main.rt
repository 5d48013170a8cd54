// Writes tables of rows from standard input, and prints a line for each.
//
// A case is a line: how many bytes of output are lent and how many rows are claimed, in decimal; the source in groups,
// as vectors::groups takes them; ` ;`; and the rows of the table, a space before each. A row is five decimals with
// commas between, the fifth counted from the row's own number; `*` and a number after them say how often it is there.
//
// The line printed has the answer: number, count and place; the checksum of the lent output as it then is; and `ok`
// where all past what is written, or the whole output after a refusal, is as it was. What is no case is `bad`.
// vectors.py writes the cases, stdin, and what is to be printed, stdout.
#![tactic(auto)]

ghost use Rattle.std.specs.Prelude.{◌<◌, IfSome};

use record::ROW_NUMBERS;
use record::limits::LONGEST;
use scalar::Refusal;
use std::io;
use std::io::{BufWriter, Read, Write};
use vectors::{After, Lines};
use writer::WriteError;

// The longest source that is looked at, longer than any that is accepted, and the most bytes lent.
const LARGEST: usize = LONGEST + 8_000;

// The most rows in a table.
const MOST: usize = 2_000;

// The most bytes of cases.
const MOST_INPUT: u64 = 400_000;

// How many bytes are lent, how many rows are claimed, the source, and the numbers in the table.
#[derive(Clone, Copy)]
struct Case<'a> {
    lent: usize,
    claimed: u64,
    source: &'a [u8],
    table: &'a [u64],
}

// A row, and where the line goes on.
#[derive(Clone, Copy)]
struct Taken {
    row: [u64; ROW_NUMBERS],
    next: usize,
}

// ---- cases

// The row after the space at `at`.
#[tactic(auto, using(vectors::specs::CaseLaws::decimal_says))]
fn take_row(line: &[u8], at: usize) -> Option<Taken>
    ensures { IfSome result (λ t. at < t.next) }
{
    let mut row = [0u64; ROW_NUMBERS];
    let mut next = at;
    for (i, number) in row.iter_mut().enumerate() {
        let mark: u8 = if i == 0 { b' ' } else { b',' };
        if !vectors::stands(line, next, mark) {
            return None;
        }
        let read = vectors::decimal(line, next + 1)?;
        *number = read.value;
        next = read.next;
    }
    Some(Taken { row, next })
}

// A row that often in the table from the row `from` on, its fifth number counted from its own row; and how many rows
// are then there.
fn store_rows(
    table: &mut [[u64; ROW_NUMBERS]],
    from: usize,
    row: [u64; ROW_NUMBERS],
    times: u64,
) -> Option<usize> {
    let [kind, place, first, second, after] = row;
    let end = from.checked_add(times as usize)?;
    for (i, stored) in table.get_mut(from..end)?.iter_mut().enumerate() {
        *stored = [
            kind,
            place,
            first,
            second,
            after.wrapping_add((from + i) as u64),
        ];
    }
    Some(end)
}

// The rows from `at` on, to the end of the line, a space before each; how many.
fn all_rows(line: &[u8], at: usize, table: &mut [[u64; ROW_NUMBERS]]) -> Option<usize> {
    let mut here = at;
    let mut held: usize = 0;
    while here < line.len() {
        let taken = take_row(line, here)?;
        let often = vectors::times(line, taken.next)?;
        held = store_rows(table, held, taken.row, often.value)?;
        here = often.next;
    }
    Some(held)
}

// The case that the line is, its source and its table stored.
fn parse<'a>(
    line: &[u8],
    source: &'a mut [u8],
    table: &'a mut [[u64; ROW_NUMBERS]],
) -> Option<Case<'a>> {
    let lent = vectors::decimal(line, 0)?;
    if !vectors::stands(line, lent.next, b' ') {
        return None;
    }
    let claimed = vectors::decimal(line, lent.next + 1)?;
    let end = vectors::groups(line, claimed.next, source)?;
    if !vectors::stands(line, end.next, b' ') || !vectors::stands(line, end.next + 1, b';') {
        return None;
    }
    let rows = all_rows(line, end.next + 2, table)?;
    Some(Case {
        lent: lent.value as usize,
        claimed: claimed.value,
        source: source.get(..end.size)?,
        table: table.get(..rows)?.as_flattened(),
    })
}

// ---- answers

// An answer, and the output after it, where all past what is written is to be as it was.
fn answer(to: &mut impl Write, case: Case<'_>, output: &mut [u8]) -> io::Result<()> {
    vectors::fill(output);
    let (number, count, from) = match writer::write(case.source, case.table, case.claimed, output) {
        Ok(size) => (0, size, size),
        Err(WriteError::TooLong) => (Refusal::Length.number(), 0, 0),
        Err(WriteError::NoRecord) => (Refusal::NoRecord.number(), 0, 0),
        Err(WriteError::TooFew { needed }) => (Refusal::Room.number(), needed, 0),
    };
    write!(to, "{number} {count} 0 {}", After { lent: output, from })
}

fn answer_line(
    to: &mut impl Write,
    line: &[u8],
    source: &mut [u8],
    table: &mut [[u64; ROW_NUMBERS]],
    output: &mut [u8],
) -> io::Result<()> {
    let Some(case) = parse(line, source, table) else {
        return write!(to, "bad");
    };
    let Some(output) = output.get_mut(..case.lent) else {
        return write!(to, "bad");
    };
    answer(to, case, output)
}

fn run_all(
    to: &mut impl Write,
    input: &[u8],
    source: &mut [u8],
    table: &mut [[u64; ROW_NUMBERS]],
    output: &mut [u8],
) -> io::Result<()> {
    for line in Lines::new(input) {
        answer_line(to, line, source, table, output)?;
        writeln!(to)?;
    }
    Ok(())
}

fn main(rt: HostRuntime) -> io::Result<()> {
    let mut input = Vec::new(rt.alloc());
    rt.stdin().take(MOST_INPUT).read_to_end(&mut input)?;
    let mut source = [0u8; LARGEST];
    let mut table = [[0u64; ROW_NUMBERS]; MOST];
    let mut output = [0u8; LARGEST];
    let mut to = BufWriter::new(rt.alloc(), rt.stdout())?;
    run_all(&mut to, &input, &mut source, &mut table, &mut output)?;
    to.flush()
}
