// Lists, maps and objects, up to the values inside. The laws of what is written of them are in record's
// proofs/ForWriter/WrittenItems.antt.
ghost use Rattle.std.specs.Prelude.{◌≡◌};
ghost use Rattle.record.specs.Model.Shortest.{object_code};
ghost use Rattle.writer.specs.Promises.{WritableIn, TurnIn, HolderKind, list_code, map_code, holder_code, PutMet};
ghost use Rattle.writer.specs.Promises.{CountWritten, ListOrMapBegun, ObjectBegun, HolderBegun};

use crate::progress::{NoRecord, Progress, Turn};
use crate::puts::{put_byte, put_int};
use crate::size::Size;
use crate::table::Table;
use crate::types::{has_type, put_type};
use record::kinds::Kind;
use record::known::Known;
use record::limits::LISTS_OPEN_FROM;
use record::tables::Cell;
use record::{Contents, Row};

// What a list, map or object holds, and where that begins.
#[derive(Clone, Copy)]
pub(crate) struct Interior {
    pub contents: Contents,
    pub at: Progress,
}

// How a value begins: it is written, and ends there; or what it holds is to follow, with 5a after it where `closes`.
#[derive(Clone, Copy)]
pub(crate) enum ValueStart {
    Past(Progress),
    Within { inside: Interior, closes: bool },
}

// The code of a list of so many elements.
fn list_code(typed: bool, count: u64) -> u8
    ensures { result ≡ list_code typed count }
{
    if count < 8 {
        return if typed {
            0x70 + count as u8
        } else {
            0x78 + count as u8
        };
    }
    if count < LISTS_OPEN_FROM {
        return if typed { 0x56 } else { 0x58 };
    }
    if typed { 0x55 } else { 0x57 }
}

// The code of a map.
fn map_code(typed: bool) -> u8
    ensures { result ≡ map_code typed }
{
    if typed { 0x4d } else { 0x48 }
}

// The code of the list or map of the row r.
fn code_of(r: Row) -> u8
    ensures { result ≡ holder_code r }
{
    let typed = has_type(r);
    if r.kind < Kind::Map as u64 {
        return list_code(typed, r.first);
    }
    map_code(typed)
}

// The count of a list, where its form has one; its elements are to follow.
fn put_count(out: &mut [u8], count: u64, at: Progress) -> Result<ValueStart, NoRecord>
    ensures { CountWritten out.old count at result out.new }
{
    let contents = Contents::Elements(count);
    if count < 8 {
        return Ok(ValueStart::Within {
            inside: Interior { contents, at },
            closes: false,
        });
    }
    if LISTS_OPEN_FROM <= count {
        return Ok(ValueStart::Within {
            inside: Interior { contents, at },
            closes: true,
        });
    }
    let size = put_int(out, count, at.size)?;
    let at = Progress { size, ..at };
    Ok(ValueStart::Within {
        inside: Interior { contents, at },
        closes: false,
    })
}

// The list or map of a row, which has its reference number; its type, if it has one, has the next row.
fn put_list_or_map<C: Cell>(
    table: &Table<C>,
    known: &mut Known,
    out: &mut [u8],
    holder: Turn,
) -> Result<ValueStart, NoRecord>
    requires { WritableIn table.now known.old holder.at }
    ensures { ListOrMapBegun table.now known.old out.old holder result known.new out.new }
{
    let row = holder.row;
    let at = Progress {
        size: put_byte(out, code_of(row), holder.at.size),
        ..holder.at
    };
    let at = put_type(table, known, out, Turn { row, at })?;
    if row.kind < Kind::Map as u64 {
        return put_count(out, row.first, at);
    }
    let contents = Contents::Couples(row.first);
    Ok(ValueStart::Within {
        inside: Interior { contents, at },
        closes: true,
    })
}

// The code of an object of this class.
fn put_object_code(out: &mut [u8], class: u64, size: Size) -> Result<Size, NoRecord>
    ensures { PutMet (object_code class) out.old size.bytes result out.new }
{
    if class < 16 {
        return Ok(put_byte(out, 0x60 + class as u8, size));
    }
    let coded = put_byte(out, 0x4f, size);
    put_int(out, class, coded)
}

// The object of a row, which has its reference number; its fields begin at the next row.
fn put_object(known: &Known, out: &mut [u8], object: Turn) -> Result<ValueStart, NoRecord>
    ensures { ObjectBegun known.now out.old object result out.new }
{
    let class = object.row.first;
    let fields = object.row.second;
    if known.fields_of(class) != Some(fields) {
        return Err(NoRecord);
    }
    let size = put_object_code(out, class, object.at.size)?;
    let contents = Contents::Elements(fields);
    let at = Progress { size, ..object.at };
    Ok(ValueStart::Within {
        inside: Interior { contents, at },
        closes: false,
    })
}

// The list, map or object of a row, up to the values inside: it gets the next reference number.
pub(crate) fn put_holder<C: Cell>(
    table: &Table<C>,
    known: &mut Known,
    out: &mut [u8],
    holder: Turn,
) -> Result<ValueStart, NoRecord>
    requires turn { TurnIn table.now known.old holder }
    requires kind { HolderKind holder.row.kind }
    ensures { HolderBegun table.now known.old out.old holder result known.new out.new }
{
    known.references += 1;
    let row = holder.row;
    let at = Progress {
        next: holder.at.next + 1,
        ..holder.at
    };
    let past = Turn { row, at };
    if row.kind == Kind::Object as u64 {
        return put_object(known, out, past);
    }
    if !has_type(row) && row.second != 0 {
        return Err(NoRecord);
    }
    put_list_or_map(table, known, out, past)
}
