// A file's bytes checked: its mark and version, then its entries, which get into an index on the way.
ghost use Rattle.std.specs.Prelude.{◌≡◌, [], ◌≤◌, length, take, drop};
ghost use Rattle.flow.specs.Flow.{same_list};
ghost use Rattle.holdings.specs.Files.{mark, mark_size, header_size, entries_in, versions, fault_of, lists_from, listing_of};
ghost use Rattle.holdings_file.specs.Promises.{held_in, newest_rules, version_of, listing_opened};
ghost use Rattle.holdings_file.specs.Index.{Indexing, WholeIndexed, FaultIs, CheckMet};

use crate::index::Index;
use crate::layout::{HEADER_SIZE, MARK, MARK_SIZE, NEWEST_VERSION, VERSION_SIZE};
use crate::memory::Memory;
use crate::{entries, messages};
use scalar::{Refusal, Refused};

// Whether the file begins with the mark.
fn is_marked(file: &[u8]) -> bool
    ensures { result ≡ same_list (take mark_size file.now) mark }
{
    file.starts_with(&MARK)
}

// The file's version; none where it is cut.
fn version(file: &[u8]) -> Option<u64>
    ensures { result ≡ version_of file.now }
{
    if file.len() < HEADER_SIZE {
        return None;
    }
    Some(wire::number_at(file, MARK_SIZE, VERSION_SIZE, 0))
}

// What is wrong with the message of an entry after the `count` entries of `earlier`.
fn entry_fault(
    earlier: &[u8],
    count: usize,
    message: &[u8],
    memory: &mut Memory,
    index: &Index,
) -> Result<(), Refusal>
    requires { WholeIndexed earlier.now count index.now }
    ensures { FaultIs (fault_of newest_rules (held_in earlier.now) message.now) result }
{
    messages::fault_alone(message, memory)?;
    if index.number_of(earlier, count, message) < count {
        return Err(Refusal::RepeatedEntry);
    }
    Ok(())
}

// Checks the entries, one by one. How many there are.
fn check_entries(file: &[u8], memory: &mut Memory, index: &mut Index) -> Result<usize, Refused>
    requires { Indexing index.old [] × (header_size ≤ length file.now) }
    ensures { CheckMet
        (lists_from newest_rules header_size [] (entries_in (drop header_size file.now)))
        file.now
        result index.new }
{
    let mut n: usize = 0;
    for entry in entries::entries_of(file) {
        let entry = entry?;
        let place = entry.at;
        if let Err(refusal) = entry_fault(&file[..place], n, entry.message, memory, index) {
            return Err(Refused { refusal, place });
        }
        index.insert(&file[..entry.end], entry.message, n);
        n += 1;
    }
    Ok(n)
}

// Checks a file's bytes. How many entries it has.
pub(crate) fn check(file: &[u8], memory: &mut Memory, index: &mut Index) -> Result<usize, Refused>
    requires { Indexing index.old [] }
    ensures { CheckMet (listing_of versions file.now) file.now result index.new }
{
    if !is_marked(file) {
        return Err(Refused {
            refusal: Refusal::Mark,
            place: 0,
        });
    }
    if version(file) != Some(NEWEST_VERSION) {
        return Err(Refused {
            refusal: Refusal::Version,
            place: 0,
        });
    }
    check_entries(file, memory, index)
}

// The same before an addition: no bytes are a new file.
pub(crate) fn check_to_extend(
    file: &[u8],
    memory: &mut Memory,
    index: &mut Index,
) -> Result<usize, Refused>
    requires { Indexing index.old [] }
    ensures { CheckMet (listing_opened file.now) file.now result index.new }
{
    if file.is_empty() {
        return Ok(0);
    }
    check(file, memory, index)
}
