// The holdings file: many records in one file (2026-01). Its layout and what it lists as stand in holdings'
// specs/Files.antt, what listing and adding answer in its specs/Answers.antt.
#![tactic(auto)]

pub(crate) mod additions;
pub(crate) mod entries;
pub(crate) mod files;
pub(crate) mod index;
pub(crate) mod layout;
pub(crate) mod memory;
pub(crate) mod messages;
pub(crate) mod pairs;

ghost use Rattle.std.specs.Prelude.{◌≡◌, ◌≤◌, length};
ghost use Rattle.holdings.specs.Files.{versions};
ghost use Rattle.holdings.specs.Answers.{as_pairs, as_pair_bytes, ListCall, AddCall, AddAllCall};
ghost use Rattle.holdings_file.specs.Answers.{report, report_of_batch};
ghost use Rattle.holdings_file.specs.Promises.{UsedMet};
ghost use Rattle.holdings_file.specs.declared.HoldingsError.TheVariants as holdings;
ghost use Rattle.holdings_file.specs.declared.BatchError.TheVariants as batch;

use crate::additions::Extent;
use crate::index::Index;
use crate::pairs::PairCell;
use scalar::{Refusal, Refused};

// What listing or adding comes to: the entries listed, or the entry's number; and the used length afterwards.
#[derive(Clone, Copy, PartialEq, Eq)]
pub struct Held {
    pub count: usize,
    pub used: usize,
}

// Why not: what is refused, and its place; or the entries or bytes needed, where fewer are lent, or 0 where working
// memory is.
#[derive(Clone, Copy, PartialEq, Eq)]
pub enum HoldingsError {
    Refused(Refused),
    TooFew { needed: usize },
}

impl From<Refused> for HoldingsError {
    ghost from_gives = { λ r e. e ≡ holdings.Refused r };

    fn from(refused: Refused) -> HoldingsError {
        HoldingsError::Refused(refused)
    }
}

// What adding many records comes to, where all of them are taken: how many, and the used length afterwards.
#[derive(Clone, Copy, PartialEq, Eq)]
pub struct Taken {
    pub records: usize,
    pub used: usize,
}

// Where not: the refusal of one, the records taken before it, and the used length then; a refusal of the file, or of
// working memory, with its place.
#[derive(Clone, Copy, PartialEq, Eq)]
pub enum BatchError {
    Stopped {
        refusal: Refusal,
        records: usize,
        used: usize,
    },
    Refused(Refused),
}

impl From<Refused> for BatchError {
    ghost from_gives = { λ r e. e ≡ batch.Refused r };

    fn from(refused: Refused) -> BatchError {
        BatchError::Refused(refused)
    }
}

// The used length, where the buffer is so long.
fn used_within(length: usize, used: u64) -> Result<usize, Refused>
    ensures { UsedMet length used result }
{
    if (length as u64) < used {
        return Err(Refused {
            refusal: Refusal::CutEntry,
            place: 0,
        });
    }
    Ok(used as usize)
}

// Lists the entries of a file, the first `used` bytes of a buffer, in either layout of a list.
fn list_in<C: PairCell>(
    file: &[u8],
    used: u64,
    rows: &mut [u64],
    bytes: &mut [u8],
    list: &mut [C],
) -> Result<Held, HoldingsError>
    ensures { ListCall versions C.layout
        file.now used rows.old bytes.old (C.numbers list.old)
        (report result) (C.numbers list.new) }
{
    let Some((mut memory, numbers)) = memory::lend(rows, bytes) else {
        return Err(HoldingsError::TooFew { needed: 0 });
    };
    let used = used_within(file.len(), used)?;
    let mut index = Index::begin(numbers, used);
    let count = files::check(&file[..used], &mut memory, &mut index)?;
    if C::pairs(list) < count {
        return Err(HoldingsError::TooFew { needed: count });
    }
    entries::fill(&file[..used], list);
    Ok(Held { count, used })
}

// The file, its used length and what is lent stay parameters, as C hands them over, and list and list_bytes two functions,
// since the promise of each names its layout.

// Lists the entries of a file, the first `used` bytes of a buffer: a message's place and its length, two numbers an
// entry. Working memory is left open.
pub fn list(
    file: &[u8],
    used: u64,
    rows: &mut [u64],
    bytes: &mut [u8],
    list: &mut [u64],
) -> Result<Held, HoldingsError>
    ensures { ListCall versions as_pairs
        file.now used rows.old bytes.old list.old
        (report result) list.new }
{
    list_in(file, used, rows, bytes, list)
}

// The same in 16 bytes an entry, each number as eight bytes, the highest first.
pub fn list_bytes(
    file: &[u8],
    used: u64,
    rows: &mut [u64],
    bytes: &mut [u8],
    list: &mut [u8],
) -> Result<Held, HoldingsError>
    ensures { ListCall versions as_pair_bytes
        file.now used rows.old bytes.old list.old
        (report result) list.new }
{
    list_in(file, used, rows, bytes, list)
}

// Adds a record, by a message of it, to a file, the first `used` bytes of a buffer. Working memory is left open.
pub fn add(
    file: &mut [u8],
    used: u64,
    record: &[u8],
    rows: &mut [u64],
    bytes: &mut [u8],
) -> Result<Held, HoldingsError>
    ensures { AddCall versions
        file.old used «record».now rows.old bytes.old
        (report result) file.new }
{
    let Some((mut memory, numbers)) = memory::lend(rows, bytes) else {
        return Err(HoldingsError::TooFew { needed: 0 });
    };
    let used = used_within(file.len(), used)?;
    let mut index = Index::begin(numbers, used);
    let count = files::check_to_extend(&file[..used], &mut memory, &mut index)?;
    additions::add_record(
        file,
        Extent { used, count },
        record,
        &mut memory,
        &mut index,
    )
}

// Adds records, laid out as entries, one after the other up to the first refusal. The numbers of their entries are
// stored, those that fit.
pub fn add_all(
    file: &mut [u8],
    used: u64,
    records: &[u8],
    rows: &mut [u64],
    bytes: &mut [u8],
    numbers: &mut [u64],
) -> Result<Taken, BatchError>
    ensures { AddAllCall versions
        file.old used records.now rows.old bytes.old numbers.old
        (report_of_batch result) file.new numbers.new }
{
    let Some((mut memory, rest)) = memory::lend(rows, bytes) else {
        return Err(BatchError::Refused(Refused {
            refusal: Refusal::Room,
            place: 0,
        }));
    };
    let used = used_within(file.len(), used)?;
    let mut index = Index::begin(rest, used / 2 + records.len() / 2);
    let count = files::check_to_extend(&file[..used], &mut memory, &mut index)?;
    additions::add_records(
        file,
        Extent { used, count },
        records,
        &mut memory,
        &mut index,
        numbers,
    )
}
