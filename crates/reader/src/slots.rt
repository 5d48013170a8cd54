// Where rows are kept as a message is read: in a table, whose cells hold them, or in a sum of their lengths.
ghost use Rattle.std.specs.Prelude.{◌≡◌, ℕ, List};
ghost use Rattle.record.specs.Laws.RowLaws.{row_of};
ghost use Rattle.reader.specs.Slots.{Keeping, Swaps, RowRead, laid, laid_swaps};

use record::Row;
use record::tables::Cell;

// What may be lent for rows.
pub(crate) trait Slot: Copy {
    // The numbers that slots hold, and those that they hold once the row with an index is kept.
    ghost numbers: { List Self → List ℕ };

    ghost kept: { Keeping };

    // Keeps the row `index`.
    fn keep(message: &[u8], slots: &mut [Self], index: usize, row: Row)
        requires { RowRead message.now (row_of row) }
        ensures { numbers slots.new ≡ kept message.now (numbers slots.old) index (row_of row) };

    ghost swaps: { Swaps kept };
}

// A table holds its rows, those that fit.
impl<C: Cell> Slot for C {
    ghost numbers = { C.numbers };

    ghost kept = { laid C.layout };

    #[inline(always)]
    fn keep(_message: &[u8], slots: &mut [C], index: usize, row: Row) {
        C::store_row(slots, index, row)
    }

    ghost swaps = { laid_swaps C.layout C.keeps };
}
