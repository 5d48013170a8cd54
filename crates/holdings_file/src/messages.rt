// One message: its record's shortest message, and what is wrong with it as an entry.
ghost use Rattle.std.specs.Prelude.{◌≡◌};
ghost use Rattle.holdings_file.specs.Promises.{RowsOf, ShortIn, Shortened, FaultAlone};

use crate::memory::Memory;
use reader::ReadError;
use scalar::{Refusal, Refused};

// Writes the shortest message of the first `count` rows, which are the message's. Its length.
fn write_short(message: &[u8], memory: &mut Memory, count: usize) -> usize
    requires { RowsOf message.now memory.old.rows.now count }
    ensures { ShortIn message.now result memory.new.bytes.now }
{
    match writer::write(message, memory.rows, count as u64, memory.bytes) {
        Ok(size) => size,
        Err(_) => unreachable!(),
    }
}

// The shortest message of the message's record, in the bytes from their beginning. Its length.
pub(crate) fn shorten(message: &[u8], memory: &mut Memory) -> Result<usize, Refused>
    ensures { Shortened message.now result memory.new.bytes.now }
{
    match reader::read(message, memory.rows) {
        Ok(read) => Ok(write_short(message, memory, read.rows)),
        Err(ReadError::Refused(refused)) => Err(refused),
        Err(ReadError::TooFew { needed: _ }) => unreachable!(),
    }
}

// What is wrong with a message by itself.
pub(crate) fn fault_alone(message: &[u8], memory: &mut Memory) -> Result<(), Refusal>
    ensures { FaultAlone message.now result }
{
    let Ok(size) = shorten(message, memory) else {
        return Err(Refusal::RefusedEntry);
    };
    if &memory.bytes[..size] != message {
        return Err(Refusal::NotShortest);
    }
    Ok(())
}
