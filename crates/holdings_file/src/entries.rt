// Entries in the bytes of a file: where they end, which message is where, and a list of them.
ghost use Rattle.std.specs.Prelude.{◌≡◌, ◌≤◌, ◌-◌, length};
ghost use Rattle.std.specs.Iterator.{at_most};
ghost use Rattle.holdings.specs.Files.{header_size, number_of};
ghost use Rattle.holdings_file.specs.Promises.{held_in, EndMet, EntryGives, filled_by};

use crate::layout::{HEADER_SIZE, LENGTH_SIZE};
use crate::pairs::PairCell;
use scalar::{Refusal, Refused};

// An entry: where it begins and ends, and its message.
#[derive(Clone, Copy)]
pub(crate) struct Entry<'a> {
    pub at: usize,
    pub end: usize,
    pub message: &'a [u8],
}

// The entries in bytes from a place on, one after the other. One that is cut is refused, and is the last.
#[derive(Drop)]
pub(crate) struct Entries<'a> {
    pub bytes: &'a [u8],
    pub at: usize,
}

// Where the entry at `at` ends; none where it is cut.
fn entry_end(bytes: &[u8], at: usize) -> Option<usize>
    requires { at ≤ length bytes.now }
    ensures { EndMet bytes.now at result }
{
    let left = bytes.len() - at;
    if left < LENGTH_SIZE {
        return None;
    }
    let size = wire::four_at(bytes, at) as usize;
    if left - LENGTH_SIZE < size {
        return None;
    }
    Some(at + LENGTH_SIZE + size)
}

impl<'a> Iterator for Entries<'a> {
    type Item = Result<Entry<'a>, Refused>;

    ghost next_gives = { EntryGives };

    ghost remaining = { λ s. at_most (length s.bytes.now - s.at) };

    #[inline(always)]
    fn next(&mut self) -> Option<Result<Entry<'a>, Refused>> {
        let at = self.at;
        if self.bytes.len() <= at {
            return None;
        }
        match entry_end(self.bytes, at) {
            None => {
                self.at = self.bytes.len();
                Some(Err(Refused {
                    refusal: Refusal::CutEntry,
                    place: at,
                }))
            }
            Some(end) => {
                self.at = end;
                Some(Ok(Entry {
                    at,
                    end,
                    message: &self.bytes[at + LENGTH_SIZE..end],
                }))
            }
        }
    }
}

// Those of a file.
pub(crate) fn entries_of(file: &[u8]) -> Entries<'_>
    ensures { (result.bytes.now ≡ file.now) × (result.at ≡ header_size) }
{
    Entries {
        bytes: file,
        at: HEADER_SIZE,
    }
}

// The number of the first whole entry with this message, or how many whole entries there are: by a walk over all of
// them.
pub(crate) fn number_of(file: &[u8], message: &[u8]) -> usize
    ensures { result ≡ number_of message.now (held_in file.now) }
{
    let mut n: usize = 0;
    for entry in entries_of(file) {
        let Ok(entry) = entry else {
            return n;
        };
        if message == entry.message {
            return n;
        }
        n += 1;
    }
    n
}

// The place and length of each whole entry's message in the list, those that fit.
pub(crate) fn fill<C: PairCell>(file: &[u8], list: &mut [C])
    ensures { C.numbers list.new ≡ filled_by C.layout file.now (C.numbers list.old) }
{
    let mut n: usize = 0;
    for entry in entries_of(file) {
        let Ok(entry) = entry else {
            return;
        };
        let place = entry.at + LENGTH_SIZE;
        C::store_pair(list, n, place as u64, entry.message.len() as u64);
        n += 1;
    }
}
