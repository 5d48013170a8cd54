// Writes the shortest message of a table of rows, whose texts and byte strings lie in a source. What a record's
// shortest message is, and what the writer answers, stands in record's specs/Model/Answers.antt.
#![tactic(auto)]

pub(crate) mod definitions;
pub(crate) mod holders;
pub(crate) mod leaves;
pub(crate) mod names;
pub(crate) mod progress;
pub(crate) mod puts;
pub(crate) mod rows;
pub(crate) mod size;
pub(crate) mod table;
pub(crate) mod types;
pub(crate) mod values;

ghost use Rattle.std.specs.Prelude.{◌≡◌};
ghost use Rattle.record.specs.Model.Answers.{base, base_open_from, as_numbers, as_bytes};
ghost use Rattle.record.specs.Model.Calls.{WriteCall};
ghost use Rattle.writer.specs.declared.WriteError.TheVariants as errors;
ghost use Rattle.writer.specs.Answers.{report};
ghost use Rattle.writer.specs.Promises.{PutMet, WritesInto, shortest_in};

use crate::holders::Interior;
use crate::progress::{NoRecord, Progress};
use crate::size::Size;
use crate::table::Table;
use record::Contents;
use record::known::Known;
use record::limits::{CONTAINERS, LONGEST};
use record::tables::Cell;

// Why a table is not written.
#[derive(Clone, Copy, PartialEq, Eq)]
pub enum WriteError {
    // The source, or the shortest message, is too long.
    TooLong,
    // The rows are no record.
    NoRecord,
    // Fewer bytes are lent than needed.
    TooFew { needed: usize },
}

impl From<NoRecord> for WriteError {
    ghost from_gives = { λ none error. error ≡ errors.NoRecord };

    fn from(_none: NoRecord) -> WriteError {
        WriteError::NoRecord
    }
}

// One run over the rows: how many bytes their shortest message takes, up to one more than the longest message, if they
// are a record. It is stored where it fits.
fn put_rows<C: Cell>(table: &Table<C>, out: &mut [u8]) -> Result<Size, NoRecord>
    ensures { PutMet (shortest_in table.now) out.old 0 result out.new }
{
    let rows = table.rows;
    let mut known = Known::new();
    let one = Interior {
        contents: Contents::Elements(1),
        at: Progress {
            next: 0,
            size: Size { bytes: 0 },
        },
    };
    let end = values::write_values(table, &mut known, out, one, CONTAINERS)?;
    if end.next < rows {
        return Err(NoRecord);
    }
    Ok(end.size)
}

// Writes the rows: judges and counts first, with no output, then stores, so that a refusal stores nothing.
fn write_rows<C: Cell>(table: &Table<C>, out: &mut [u8]) -> Result<usize, WriteError>
    ensures { WritesInto (shortest_in table.now) out.old result out.new }
{
    let mut none: [u8; 0] = [];
    let size = put_rows(table, &mut none)?.bytes;
    if LONGEST < size {
        return Err(WriteError::TooLong);
    }
    if out.len() < size {
        return Err(WriteError::TooFew { needed: size });
    }
    let _ = put_rows(table, out);
    Ok(size)
}

// Writes the first `rows` rows of a table.
fn write_table<C: Cell>(
    source: &[u8],
    cells: &[C],
    rows: u64,
    out: &mut [u8],
) -> Result<usize, WriteError>
    ensures { WriteCall base base_open_from C.layout
        source.now (C.numbers cells.now) rows out.old
        (report result) out.new }
{
    if LONGEST < source.len() {
        return Err(WriteError::TooLong);
    }
    if (C::rows(cells) as u64) < rows {
        return Err(WriteError::NoRecord);
    }
    let rows = rows as usize;
    let table = Table {
        source,
        cells,
        rows,
    };
    write_rows(&table, out)
}

// Writes the first `rows` rows of a table of five numbers a row.
pub fn write(
    source: &[u8],
    table: &[u64],
    rows: u64,
    output: &mut [u8],
) -> Result<usize, WriteError>
    ensures { WriteCall base base_open_from as_numbers
        source.now table.now rows output.old
        (report result) output.new }
{
    write_table(source, table, rows, output)
}

// Writes the first `rows` rows of a table of 40 bytes a row, each number as eight bytes, the highest first.
pub fn write_bytes(
    source: &[u8],
    table: &[u8],
    rows: u64,
    output: &mut [u8],
) -> Result<usize, WriteError>
    ensures { WriteCall base base_open_from as_bytes
        source.now table.now rows output.old
        (report result) output.new }
{
    write_table(source, table, rows, output)
}
