// How many bytes there are so far.
ghost use Rattle.std.specs.Prelude.{◌≡◌, ◌+◌, ◌≤◌, min};
ghost use Rattle.writer.specs.Lent.{over_longest};

use record::limits::LONGEST;

// One more than the bytes of the longest message.
const OVER: usize = LONGEST + 1;

// The count stops above the longest message, so that it cannot overflow, whatever the rows claim.
#[derive(Clone, Copy)]
pub(crate) struct Size {
    pub bytes: usize,
    ghost few: { bytes ≤ over_longest },
}

impl Size {
    // With so many bytes more.
    #[inline(always)]
    pub fn grown(self, more: usize) -> Size
        ensures { result.bytes ≡ min (self.bytes + more) over_longest }
    {
        if OVER - self.bytes <= more {
            return Size { bytes: OVER };
        }
        Size {
            bytes: self.bytes + more,
        }
    }
}
