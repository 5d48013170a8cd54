// Bytes put behind those so far: stored where they fit, and counted.
ghost use Rattle.std.specs.Prelude.{[], ◌∷◌};
ghost use Rattle.scalar.specs.declared.Sort.TheVariants as kinds;
ghost use Rattle.scalar.specs.Scalars.{shortest, forms_of};
ghost use Rattle.scalar.specs.Answers.{sized_form};
ghost use Rattle.writer.specs.Promises.{Puts, PutBy, PutMet};

use crate::progress::NoRecord;
use crate::size::Size;
use scalar::{Encoding, Sort, Unwritten};

// One byte.
pub(crate) fn put_byte(out: &mut [u8], b: u8, size: Size) -> Size
    ensures { Puts out.old size.bytes (b ∷ []) out.new result.bytes }
{
    if size.bytes < out.len() {
        out[size.bytes] = b;
    }
    size.grown(1)
}

// How many bytes there are then, by what writing some came to: those that found no room count too. It grows in one place:
// with a call in each arm ints take longer.
#[inline(always)]
fn put_by(written: Result<usize, Unwritten>, size: Size) -> Result<Size, NoRecord>
    ensures { PutBy written size.bytes result }
{
    let more = match written {
        Ok(more) => more,
        Err(Unwritten::NoRoom { needed }) => needed,
        Err(Unwritten::NoSuchForm) => return Err(NoRecord),
    };
    Ok(size.grown(more))
}

// ---- numbers

// A number of this kind in its shortest form.
#[inline(always)]
pub(crate) fn put_number(
    out: &mut [u8],
    sort: Sort,
    value: u64,
    size: Size,
) -> Result<Size, NoRecord>
    ensures { PutMet (shortest (forms_of sort) value) out.old size.bytes result out.new }
{
    let Some(more) = numbers::put_number(sort, value, out, size.bytes) else {
        return Err(NoRecord);
    };
    Ok(size.grown(more))
}

// An int in its shortest form. Not by put_number: so much would be inlined then that put_leaf is no longer.
#[inline(always)]
pub(crate) fn put_int(out: &mut [u8], value: u64, size: Size) -> Result<Size, NoRecord>
    ensures { PutMet (shortest (forms_of kinds.Int) value) out.old size.bytes result out.new }
{
    let Some(more) = numbers::stores::put_int(value, out, size.bytes) else {
        return Err(NoRecord);
    };
    Ok(size.grown(more))
}

// ---- texts and byte strings

// The text or byte string at a place of the source in its shortest form, if it has so many units and bytes. With the
// parameters in another order a short text costs up to 3 % more.
pub(crate) fn put_string(
    source: &[u8],
    out: &mut [u8],
    place: usize,
    kind: Encoding,
    units: usize,
    bytes: usize,
    size: Size,
) -> Result<Size, NoRecord>
    ensures { PutMet (sized_form kind source.now place units bytes) out.old size.bytes result out.new }
{
    put_by(
        text_writer::write_sized(kind, source, place, units, bytes, out, size.bytes),
        size,
    )
}
