// Values that hold no others: numbers, texts, byte strings and references.
ghost use Rattle.std.specs.Prelude.{◌≡◌};
ghost use Rattle.writer.specs.Promises.{SortOf, NoHolderKind, NumberMet, ContentMet, ReferenceMet, LeafMet};

use crate::progress::NoRecord;
use crate::size::Size;
use record::Row;
use record::kinds::Kind;
use scalar::Sort;

// The kind of number that a row of this kind gives.
fn sort_of(kind: Kind) -> Option<Sort>
    ensures { SortOf kind result }
{
    match kind {
        Kind::Null => Some(Sort::Null),
        Kind::False => Some(Sort::False),
        Kind::True => Some(Sort::True),
        Kind::Int => Some(Sort::Int),
        Kind::Long => Some(Sort::Long),
        Kind::Double => Some(Sort::Double),
        Kind::Date => Some(Sort::Date),
        _ => None,
    }
}

// The number of this kind of the row r.
#[inline(always)]
fn put_value(out: &mut [u8], sort: Sort, r: Row, size: Size) -> Result<Size, NoRecord>
    ensures { NumberMet sort r out.old size.bytes result out.new }
{
    if r.second != 0 {
        return Err(NoRecord);
    }
    crate::puts::put_number(out, sort, r.first, size)
}

// The byte string of the row r.
fn put_content(source: &[u8], out: &mut [u8], r: Row, size: Size) -> Result<Size, NoRecord>
    ensures { ContentMet source.now r out.old size.bytes result out.new }
{
    if r.second != 0 {
        return Err(NoRecord);
    }
    crate::names::put_bytes(source, out, r, size)
}

// The reference of the row r, where so many numbers are given.
#[inline(always)]
fn put_reference(out: &mut [u8], r: Row, references: u64, size: Size) -> Result<Size, NoRecord>
    ensures { ReferenceMet r references out.old size.bytes result out.new }
{
    if r.second != 0 {
        return Err(NoRecord);
    }
    if references <= r.first {
        return Err(NoRecord);
    }
    let at = crate::puts::put_byte(out, 0x51, size);
    crate::puts::put_int(out, r.first, at)
}

// The value of the row r, which is no list, map or object, where so many references are given. Each instance of the core
// has it inlined, and so the numbers, which are most of a record's values.
#[inline(always)]
pub(crate) fn put_leaf(
    source: &[u8],
    out: &mut [u8],
    r: Row,
    references: u64,
    size: Size,
) -> Result<Size, NoRecord>
    requires { NoHolderKind r.kind }
    ensures { LeafMet source.now r references out.old size.bytes result out.new }
{
    let Ok(kind) = Kind::try_from(r.kind) else {
        return Err(NoRecord);
    };
    if let Some(sort) = sort_of(kind) {
        return put_value(out, sort, r, size);
    }
    match kind {
        Kind::Text => crate::names::put_text(source, out, r, size),
        Kind::Bytes => put_content(source, out, r, size),
        Kind::Reference => put_reference(out, r, references, size),
        _ => Err(NoRecord),
    }
}
