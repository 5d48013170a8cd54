// Lists of placements: a message's place and its length, two numbers an entry, or from C eight bytes a number.
ghost use Rattle.std.specs.Prelude.{◌≡◌, ◌/◌, List, ℕ, length};
ghost use Rattle.flow.specs.Flow.{put};
ghost use Rattle.holdings.specs.Answers.{ListLayout, placement, as_pairs, as_pair_bytes};

// So many numbers, and so many bytes, has a placement in a list.
const PAIR_NUMBERS: usize = 2;

const PAIR_BYTES: usize = 16;

// So many bytes has a number there.
const NUMBER_BYTES: usize = 8;

// What a list of placements consists of.
pub(crate) trait PairCell: Copy {
    ghost layout: { ListLayout };

    ghost numbers: { List Self → List ℕ };

    // So many placements are lent.
    fn pairs(list: &[Self]) -> usize
        ensures { result ≡ length (numbers list.now) / layout.width };

    // A place and a length as the pair `index` of a list, where it fits.
    fn store_pair(list: &mut [Self], index: usize, place: u64, length: u64)
        ensures { numbers list.new ≡ put layout.width layout.encode (numbers list.old) index (placement place length) };
}

impl PairCell for u64 {
    ghost layout = { as_pairs };

    ghost numbers = { λ t. t };

    fn pairs(list: &[u64]) -> usize {
        list.len() / PAIR_NUMBERS
    }

    fn store_pair(list: &mut [u64], index: usize, place: u64, length: u64) {
        if index < list.len() / PAIR_NUMBERS {
            let k = index * PAIR_NUMBERS;
            list[k] = place;
            list[k + 1] = length;
        }
    }
}

impl PairCell for u8 {
    ghost layout = { as_pair_bytes };

    ghost numbers = { λ t. t };

    fn pairs(list: &[u8]) -> usize {
        list.len() / PAIR_BYTES
    }

    fn store_pair(list: &mut [u8], index: usize, place: u64, length: u64) {
        if index < list.len() / PAIR_BYTES {
            let k = index * PAIR_BYTES;
            wire::store_number(list, k, NUMBER_BYTES, place);
            wire::store_number(list, k + NUMBER_BYTES, NUMBER_BYTES, length);
        }
    }
}
