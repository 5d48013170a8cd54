// Values: class definitions, a row, and the values inside. The laws of what is written of them are in record's
// proofs/ForWriter/WrittenContents.antt and WrittenValues.antt.
ghost use Rattle.std.specs.Prelude.{◌≡◌};
ghost use Rattle.record.specs.ForWriter.WrittenContents.{done};
ghost use Rattle.writer.specs.Promises.{WritableIn, TurnIn, Puts, closing, RowBegun, ValueBegun};
ghost use Rattle.writer.specs.Promises.{ValuesWritten};

use crate::definitions::put_definitions;
use crate::holders::{Interior, ValueStart, put_holder};
use crate::leaves::put_leaf;
use crate::progress::{NoRecord, Progress, Turn};
use crate::puts::put_byte;
use crate::size::Size;
use crate::table::Table;
use record::Contents;
use record::kinds::Kind;
use record::known::Known;
use record::tables::Cell;

// How a value begins, and the fifth number of its row.
#[derive(Clone, Copy)]
pub(crate) struct Entered {
    pub start: ValueStart,
    pub after: u64,
}

// Whether no value is left after i of them.
fn finished(contents: Contents, i: u64) -> bool
    ensures { result ≡ done contents i }
{
    match contents {
        Contents::Elements(n) => i == n,
        Contents::Couples(n) => i % 2 == 0 && i / 2 == n,
    }
}

// 5a, where it is due.
fn close(out: &mut [u8], closes: bool, size: Size) -> Size
    ensures { Puts out.old size.bytes (closing closes) out.new result.bytes }
{
    if closes {
        return put_byte(out, 0x5a, size);
    }
    size
}

// The value of a row, and all of it where it holds no others. So many more lists, maps and objects may open.
fn begin_row<C: Cell>(
    table: &Table<C>,
    known: &mut Known,
    out: &mut [u8],
    value: Turn,
    allowed: usize,
) -> Result<ValueStart, NoRecord>
    requires { TurnIn table.now known.old value }
    ensures { RowBegun table.now known.old out.old value allowed result known.new out.new }
{
    let row = value.row;
    if row.kind < Kind::List as u64 || row.kind > Kind::Object as u64 {
        let size = put_leaf(table.source(), out, row, known.references, value.at.size)?;
        let next = value.at.next + 1;
        return Ok(ValueStart::Past(Progress { next, size }));
    }
    if allowed == 0 {
        return Err(NoRecord);
    }
    put_holder(table, known, out, value)
}

// The next value, with the definitions before it, up to the values inside.
fn begin<C: Cell>(
    table: &Table<C>,
    known: &mut Known,
    out: &mut [u8],
    at: Progress,
    allowed: usize,
) -> Result<Entered, NoRecord>
    requires { WritableIn table.now known.old at }
    ensures { ValueBegun table.now known.old out.old at allowed result known.new out.new }
{
    let value = put_definitions(table, known, out, at)?;
    let start = begin_row(table, known, out, value, allowed)?;
    let after = value.row.after;
    Ok(Entered { start, after })
}

// Writes the values inside a list, map or object. The fifth number of each list, map or object among them is the row
// after its values.
pub(crate) fn write_values<C: Cell>(
    table: &Table<C>,
    known: &mut Known,
    out: &mut [u8],
    values: Interior,
    allowed: usize,
) -> Result<Progress, NoRecord>
    requires { WritableIn table.now known.old values.at }
    ensures { ValuesWritten table.now known.old out.old values allowed result known.new out.new }
{
    let mut at = values.at;
    let mut i: u64 = 0;
    // No range counts the values: twice the pairs may be more than 64 bits hold.
    while !finished(values.contents, i) {
        let entered = begin(table, known, out, at, allowed)?;
        at = match entered.start {
            ValueStart::Past(end) => end,
            ValueStart::Within { inside, closes } => {
                let end = write_values(table, known, out, inside, allowed - 1)?;
                if end.next as u64 != entered.after {
                    return Err(NoRecord);
                }
                Progress {
                    size: close(out, closes, end.size),
                    ..end
                }
            }
        };
        i += 1;
    }
    Ok(at)
}
