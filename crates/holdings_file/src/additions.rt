// Records added to a file that is checked: each is shortened, looked up, and appended where no entry has its message.
ghost use Rattle.std.specs.Prelude.{◌≡◌, ◌+◌, ◌^◌, ◌≤◌, ◌<◌, length};
ghost use Rattle.flow.specs.Flow.{stored, put};
ghost use Rattle.holdings_file.specs.Promises.{Placeable, EntryStored, Appended};
ghost use Rattle.holdings.specs.Files.{versions};
ghost use Rattle.holdings.specs.Answers.{addition};
ghost use Rattle.holdings_file.specs.Extents.{IsExtent, ShortMessage, AddMet, placed, count_after, one};
ghost use Rattle.holdings_file.specs.Extents.{AddAllMet, batch_of, refusal_in};

use crate::entries::Entries;
use crate::index::Index;
use crate::layout::{HEADER_SIZE, LENGTH_SIZE, MARK, MARK_SIZE, NEWEST_VERSION, VERSION_SIZE};
use crate::memory::Memory;
use crate::{BatchError, Held, HoldingsError, Taken, messages};
use scalar::Refusal;

// A file that records are added to: the bytes used, and its entries.
#[derive(Clone, Copy)]
pub(crate) struct Extent {
    pub used: usize,
    pub count: usize,
}

// The message's entry in the file from `at` on, where it fits. Where it ends.
fn put_entry(file: &mut [u8], at: usize, message: &[u8]) -> Result<usize, HoldingsError>
    requires { Placeable file.old at message.now }
    ensures { EntryStored file.old at message.now result file.new }
{
    let start = at + LENGTH_SIZE;
    let end = start + message.len();
    if file.len() < end {
        return Err(HoldingsError::TooFew { needed: end });
    }
    wire::store_number(file, at, LENGTH_SIZE, message.len() as u64);
    file[start..end].copy_from_slice(message);
    Ok(end)
}

// The same behind the used bytes; in a new file, which has none, behind its header, where both fit.
fn append(file: &mut [u8], used: usize, message: &[u8]) -> Result<usize, HoldingsError>
    requires { Placeable file.old used message.now }
    ensures { Appended file.old used message.now result file.new }
{
    if used != 0 {
        return put_entry(file, used, message);
    }
    let end = HEADER_SIZE + LENGTH_SIZE + message.len();
    if file.len() < end {
        return Err(HoldingsError::TooFew { needed: end });
    }
    file[..MARK_SIZE].copy_from_slice(&MARK);
    wire::store_number(file, MARK_SIZE, VERSION_SIZE, NEWEST_VERSION);
    put_entry(file, HEADER_SIZE, message)
}

// The message in the file: where it is, or appended, and then in the index.
fn place_in(
    file: &mut [u8],
    extent: Extent,
    message: &[u8],
    index: &mut Index,
) -> Result<Held, HoldingsError>
    requires { IsExtent file.old extent index.old × ShortMessage message.now }
    ensures { AddMet
        file.old extent (placed file.old extent message.now)
        result file.new index.new }
{
    let Extent { used, count } = extent;
    let number = index.number_of(&file[..used], count, message);
    if number < count {
        return Ok(Held {
            count: number,
            used,
        });
    }
    let end = append(file, used, message)?;
    index.insert(&file[..end], message, count);
    Ok(Held {
        count: number,
        used: end,
    })
}

// Adds a record to the file.
pub(crate) fn add_record(
    file: &mut [u8],
    extent: Extent,
    record: &[u8],
    memory: &mut Memory,
    index: &mut Index,
) -> Result<Held, HoldingsError>
    requires { IsExtent file.old extent index.old }
    ensures { AddMet
        file.old extent (addition versions file.old extent.used «record».now)
        result file.new index.new }
{
    let size = messages::shorten(record, memory)?;
    place_in(file, extent, &memory.bytes[..size], index)
}

// How many entries there are after a record got this number, where there were `count` before.
fn count_after(count: usize, number: usize) -> usize
    requires { count + 1 < 2 ^ 64 }
    ensures { result ≡ count_after count number }
{
    if number < count {
        return count;
    }
    count + 1
}

// The number as the one at `index` of a list, where it fits.
fn store_number(list: &mut [u64], index: usize, number: u64)
    ensures { list.new ≡ put 1 one list.old index number }
{
    if index < list.len() {
        list[index] = number;
    }
}

// The refusal: of a file too short for an entry, room.
fn refusal_in(error: HoldingsError) -> Refusal
    ensures { result ≡ refusal_in error }
{
    match error {
        HoldingsError::Refused(refused) => refused.refusal,
        HoldingsError::TooFew { needed: _ } => Refusal::Room,
    }
}

// Adds records, laid out as entries, one after the other up to the first refusal.
pub(crate) fn add_records(
    file: &mut [u8],
    extent: Extent,
    records: &[u8],
    memory: &mut Memory,
    index: &mut Index,
    numbers: &mut [u64],
) -> Result<Taken, BatchError>
    requires { IsExtent file.old extent index.old }
    ensures { AddAllMet
        (batch_of file.old extent.used records.now)
        file.old numbers.old
        result file.new numbers.new }
{
    let Extent {
        mut used,
        mut count,
    } = extent;
    let mut taken: usize = 0;
    let entries = Entries {
        bytes: records,
        at: 0,
    };
    for entry in entries {
        let entry = match entry {
            Ok(entry) => entry,
            Err(cut) => {
                return Err(BatchError::Stopped {
                    refusal: cut.refusal,
                    records: taken,
                    used,
                });
            }
        };
        match add_record(file, Extent { used, count }, entry.message, memory, index) {
            Err(error) => {
                return Err(BatchError::Stopped {
                    refusal: refusal_in(error),
                    records: taken,
                    used,
                });
            }
            Ok(held) => {
                store_number(numbers, taken, held.count as u64);
                count = count_after(count, held.count);
                used = held.used;
            }
        }
        taken += 1;
    }
    Ok(Taken {
        records: taken,
        used,
    })
}
