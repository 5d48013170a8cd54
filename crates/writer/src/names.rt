// Texts and byte strings that rows name by a place of the source.
ghost use Rattle.writer.specs.Promises.{items_of, Among, StringMet, NameWritten, NamesWritten};

use crate::progress::{NoRecord, Progress};
use crate::rows::fetch;
use crate::size::Size;
use crate::table::Table;
use record::Row;
use record::kinds::Kind;
use record::tables::Cell;
use scalar::Encoding;

// The text of the row r in its shortest form, if its place opens one of the row's sizes.
pub(crate) fn put_text(source: &[u8], out: &mut [u8], r: Row, size: Size) -> Result<Size, NoRecord>
    ensures { StringMet
        Encoding.Utf8 source.now r.place r.first r.second out.old size.bytes
        result out.new }
{
    let place = r.place as usize;
    let units = r.first as usize;
    let bytes = r.second as usize;
    crate::puts::put_string(source, out, place, Encoding::Utf8, units, bytes, size)
}

// The bytes of the row r likewise.
pub(crate) fn put_bytes(source: &[u8], out: &mut [u8], r: Row, size: Size) -> Result<Size, NoRecord>
    ensures { StringMet
        Encoding.Binary source.now r.place r.first r.first out.old size.bytes
        result out.new }
{
    let place = r.place as usize;
    let length = r.first as usize;
    crate::puts::put_string(source, out, place, Encoding::Binary, length, length, size)
}

// The name that the next row gives, if it is of this kind.
pub(crate) fn put_name<C: Cell>(
    table: &Table<C>,
    out: &mut [u8],
    kind: Kind,
    at: Progress,
) -> Result<Size, NoRecord>
    requires { Among (items_of table.now) at.next }
    ensures { NameWritten table.now out.old kind at result out.new }
{
    let row = fetch(table, at.next)?;
    if row.kind != kind.number() {
        return Err(NoRecord);
    }
    put_text(table.source(), out, row, at.size)
}

// So many field names, from the next row on.
pub(crate) fn put_field_names<C: Cell>(
    table: &Table<C>,
    out: &mut [u8],
    count: u64,
    from: Progress,
) -> Result<Size, NoRecord>
    requires { Among (items_of table.now) from.next }
    ensures { NamesWritten table.now out.old count from result out.new }
{
    let mut at = from;
    for _ in 0..count {
        let size = put_name(table, out, Kind::FieldName, at)?;
        at = Progress {
            next: at.next + 1,
            size,
        };
    }
    Ok(at.size)
}
