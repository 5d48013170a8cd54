// Working memory: rows and bytes for the longest message; the numbers lent beyond those rows serve as an index.
ghost use Rattle.std.specs.Prelude.{◌≡◌, is_some};
ghost use Rattle.holdings.specs.Files.{versions};
ghost use Rattle.holdings.specs.Terms.{Enough};
ghost use Rattle.holdings_file.specs.Promises.{is_lent};

use record::ROW_NUMBERS;
use record::limits::LONGEST;

// The rows and the bytes.
#[derive(Drop)]
pub(crate) struct Memory<'a> {
    pub rows: &'a mut [u64],
    pub bytes: &'a mut [u8],
    ghost lent: { Enough versions rows.now bytes.now },
}

// The rows and the bytes, and the numbers for an index, where enough are lent.
pub(crate) fn lend<'a>(
    rows: &'a mut [u64],
    bytes: &'a mut [u8],
) -> Option<(Memory<'a>, &'a mut [u64])>
    ensures { is_some result ≡ is_lent rows.old bytes.old }
{
    if rows.len() / ROW_NUMBERS < LONGEST || bytes.len() < LONGEST {
        return None;
    }
    let (rows, numbers) = rows.split_at_mut(LONGEST * ROW_NUMBERS);
    Some((Memory { rows, bytes }, numbers))
}
