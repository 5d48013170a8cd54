// An index of a file's messages in lent numbers: chains of entries whose messages fall into one bucket. Entries beyond
// its room are not in it, and then it is not used. With no buckets there is no index.
ghost use Rattle.std.specs.Prelude.{◌≡◌, [], ◌<◌, ◌≤◌, length};
ghost use Rattle.holdings.specs.Files.{number_of};
ghost use Rattle.holdings_file.specs.Promises.{held_in};
ghost use Rattle.holdings_file.specs.Index.{InBucket, Indexed, Indexing, WholeIndexed, Fresh};

use crate::entries;

// So many numbers has an entry.
const ENTRY_NUMBERS: usize = 3;

// So many numbers are lent for a bucket at least: its own, and those of an entry.
const BUCKET_NUMBERS: usize = 4;

// So many bytes of a file and of records are there for a bucket at least: emptying the index takes time by their bytes,
// not by the numbers lent.
const BUCKET_BYTES: usize = 16;

// So many bytes go into a hash at once.
const BLOCK: usize = 8;

// A hash is multiplied by a prime, and taken modulo the largest prime below 2 ^ 32.
const FACTOR: u64 = 65_599;

const MODULUS: u64 = 4_294_967_291;

// That an index has the messages of a file stays a clause (Indexing, IsExtent): it speaks of the file too, which is lent
// beside it.

// Of each bucket the newest entry, plus 1, or 0; then of each entry three numbers: its message's place and length, and
// the entry before it in its chain, plus 1, or 0.
#[derive(Drop)]
pub(crate) struct Index<'a> {
    heads: &'a mut [u64],
    chains: &'a mut [u64],
}

// The bucket of a message.
fn bucket(message: &[u8], buckets: usize) -> usize
    requires { 0 < buckets }
    ensures { InBucket buckets message.now result }
{
    let mut hash: u64 = 0;
    for block in 0..message.len() / BLOCK + 1 {
        hash = (hash * FACTOR + wire::eight_at(message, BLOCK * block) % MODULUS) % MODULUS;
    }
    hash as usize % buckets
}

impl<'a> Index<'a> {
    // An index with nothing in it, for so many bytes of entries.
    pub(crate) fn begin(numbers: &'a mut [u64], bytes: usize) -> Index<'a>
        ensures { Indexing result [] }
    {
        let buckets = (bytes / BUCKET_BYTES + 1).min(numbers.len() / BUCKET_NUMBERS);
        let (heads, chains) = numbers.split_at_mut(buckets);
        heads.fill(0);
        Index { heads, chains }
    }

    // The number of the entry with this message, or how many there are: by the index, which has all of them.
    fn find(&self, file: &[u8], count: usize, message: &[u8]) -> usize
        requires { WholeIndexed file.now count self.now × Indexed self.now.heads.now self.now.chains.now (held_in file.now) }
        ensures { result ≡ number_of message.now (held_in file.now) }
    {
        let mut next = self.heads[bucket(message, self.heads.len())];
        while let Some(entry) = next.checked_sub(1) {
            let at = ENTRY_NUMBERS * entry as usize;
            let place = self.chains[at] as usize;
            let end = place + self.chains[at + 1] as usize;
            if message == &file[place..end] {
                return entry as usize;
            }
            next = self.chains[at + 2];
        }
        count
    }

    // The same, where the index may not have all of them: then by a walk.
    pub(crate) fn number_of(&self, file: &[u8], count: usize, message: &[u8]) -> usize
        requires { WholeIndexed file.now count self.now }
        ensures { result ≡ number_of message.now (held_in file.now) }
    {
        if self.heads.len() == 0 || self.chains.len() / ENTRY_NUMBERS < count {
            return entries::number_of(file, message);
        }
        self.find(file, count, message)
    }

    // Puts the last entry of a file, which has this message, into the index after the `count` entries before it, where
    // there is room.
    pub(crate) fn insert(&mut self, file: &[u8], message: &[u8], count: usize)
        requires { Fresh file.now message.now count self.old }
        ensures { Indexing self.new (held_in file.now) }
    {
        if self.heads.len() == 0 || self.chains.len() / ENTRY_NUMBERS <= count {
            return;
        }
        let b = bucket(message, self.heads.len());
        let at = ENTRY_NUMBERS * count;
        self.chains[at] = (file.len() - message.len()) as u64;
        self.chains[at + 1] = message.len() as u64;
        self.chains[at + 2] = self.heads[b];
        self.heads[b] = (count + 1) as u64;
    }
}
