// Types of lists and maps. The laws of what is written of them are in record's proofs/ForWriter/WrittenNames.antt.
ghost use Rattle.std.specs.Prelude.{◌≡◌};
ghost use Rattle.record.specs.Model.Kinds.{type_name_kind, type_number_kind};
ghost use Rattle.record.specs.Laws.KnownLaws.{Kept};
ghost use Rattle.writer.specs.Promises.{WritableIn, has_type, TypeRowMet, TypeNumberMet, TypeWritten};

use crate::progress::{NoRecord, Progress, Turn};
use crate::rows::fetch;
use crate::size::Size;
use crate::table::Table;
use record::Row;
use record::kinds::Kind;
use record::known::Known;
use record::limits::TYPES;
use record::tables::Cell;

// Whether the list or map of the row r has a type: its kind is even.
pub(crate) fn has_type(r: Row) -> bool
    ensures { result ≡ has_type r }
{
    r.kind % 2 == 0
}

// The type of this number, whose name the row r gives.
fn put_type_name(
    source: &[u8],
    known: &mut Known,
    out: &mut [u8],
    r: Row,
    number: u64,
    size: Size,
) -> Result<Size, NoRecord>
    requires kept { Kept known.old }
    requires kind { r.kind ≡ type_name_kind }
    ensures { TypeRowMet
        source.now r number known.old out.old size.bytes
        result known.new out.new }
{
    if known.types != number {
        return Err(NoRecord);
    }
    if TYPES <= known.types {
        return Err(NoRecord);
    }
    known.types += 1;
    crate::names::put_text(source, out, r, size)
}

// The type of this number, which the row r names.
fn put_type_number(
    known: &Known,
    out: &mut [u8],
    r: Row,
    number: u64,
    size: Size,
) -> Result<Size, NoRecord>
    requires kept { Kept known.now }
    requires kind { r.kind ≡ type_number_kind }
    ensures { TypeNumberMet r number known.now out.old size.bytes result out.new }
{
    if r.second != 0 {
        return Err(NoRecord);
    }
    if r.first != number {
        return Err(NoRecord);
    }
    if known.types <= number {
        return Err(NoRecord);
    }
    crate::puts::put_int(out, number, size)
}

// The type of this number, which the row r gives.
fn put_type_row(
    source: &[u8],
    known: &mut Known,
    out: &mut [u8],
    r: Row,
    number: u64,
    size: Size,
) -> Result<Size, NoRecord>
    requires { Kept known.old }
    ensures { TypeRowMet
        source.now r number known.old out.old size.bytes
        result known.new out.new }
{
    if r.kind == Kind::TypeName as u64 {
        return put_type_name(source, known, out, r, number, size);
    }
    if r.kind == Kind::TypeNumber as u64 {
        return put_type_number(known, out, r, number, size);
    }
    Err(NoRecord)
}

// The type of a list or map, which has the next row; nothing, where it has none.
pub(crate) fn put_type<C: Cell>(
    table: &Table<C>,
    known: &mut Known,
    out: &mut [u8],
    holder: Turn,
) -> Result<Progress, NoRecord>
    requires { WritableIn table.now known.old holder.at }
    ensures { TypeWritten table.now known.old out.old holder result known.new out.new }
{
    let at = holder.at;
    if !has_type(holder.row) {
        return Ok(at);
    }
    let row = fetch(table, at.next)?;
    let size = put_type_row(table.source(), known, out, row, holder.row.second, at.size)?;
    let next = at.next + 1;
    Ok(Progress { next, size })
}
