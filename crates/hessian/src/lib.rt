// The C interface: include/hessian.h declares these functions. A table crosses as bytes, eight big-endian bytes a
// number, and the answer of the reader and of the writer as one number, a length as it is, other answers as a struct.
// What a call gives stands in specs/Packed.antt, what follows from it in specs/Demands.antt.
#![tactic(auto)]

pub(crate) mod answers;
pub(crate) mod files;

ghost use Rattle.std.specs.Prelude.{◌≡◌, List, ℕ};
ghost use Rattle.scalar.specs.Scalars.{Floats, Thousandths};
ghost use Rattle.record.specs.Model.KindNumbers.{named_by};
ghost use Rattle.record.specs.Model.Claims.{named_content};
ghost use Rattle.hessian.specs.Packed.{ReadGives, LengthGives, WriteGives, ContentGives};

use record::kinds::{Kind, NoKind};
use scalar::{Encoding, Unwritten};

// Number, count and place of an answer.
#[repr(C)]
#[derive(Clone, Copy)]
pub struct HessianAnswer {
    pub number: u64,
    pub count: u64,
    pub place: u64,
}

// Reads the message into the table.
#[unsafe(no_mangle)]
pub extern "C" fn hessian_read(message: &[u8], table: &mut [u8]) -> u64
    ensures { ReadGives Floats message.now table.old result table.new }
{
    HessianAnswer::from(reader::fill_bytes(message, table)).packed()
}

// The same, where 5f counts thousandths.
#[unsafe(no_mangle)]
pub extern "C" fn hessian_read_thousandths(message: &[u8], table: &mut [u8]) -> u64
    ensures { ReadGives Thousandths message.now table.old result table.new }
{
    HessianAnswer::from(reader::fill_bytes_thousandths(message, table)).packed()
}

// The length of the shortest message of the record in the message; 0 where it is refused.
#[unsafe(no_mangle)]
pub extern "C" fn hessian_shortest_length(message: &[u8]) -> u64
    ensures { LengthGives Floats message.now result }
{
    reader::shortest_length(message)
}

// The same, where 5f counts thousandths.
#[unsafe(no_mangle)]
pub extern "C" fn hessian_shortest_length_thousandths(message: &[u8]) -> u64
    ensures { LengthGives Thousandths message.now result }
{
    reader::shortest_length_thousandths(message)
}

// Writes the shortest message of the first `rows` rows of the table, whose texts and bytes lie in the source, into the
// output.
#[unsafe(no_mangle)]
pub extern "C" fn hessian_write(source: &[u8], table: &[u8], rows: u64, output: &mut [u8]) -> u64
    ensures { WriteGives source.now table.now rows output.old result output.new }
{
    HessianAnswer::from(writer::write_bytes(source, table, rows, output)).packed()
}

// How the string is held that a row of this kind names, if it names one. A kind is a number in the C interface, and so
// are the answers of what follows, 0 for none.
fn encoding_of(kind: u64) -> Option<Encoding>
    ensures { (source : List ℕ) (place : ℕ) → named_content source kind place ≡ named_by result source place }
{
    match Kind::try_from(kind) {
        Ok(kind) => kind.encoding(),
        Err(NoKind) => None,
    }
}

// Copies the content of the text or byte string that a row of this kind and place names, in the source, to the output.
#[unsafe(no_mangle)]
pub extern "C" fn hessian_content(
    source: &[u8],
    kind: u64,
    place: u64,
    output: &mut [u8],
) -> HessianAnswer
    ensures { ContentGives source.now kind place output.old result output.new }
{
    let copied = match encoding_of(kind) {
        Some(encoding) => text_writer::write_content(encoding, source, place as usize, output),
        None => Err(Unwritten::NoSuchForm),
    };
    HessianAnswer::from(copied)
}
