// 2026-11: a message read in thousandths has the rows of the main rule, but for the bits of its doubles at 5f. So a
// table that was filled by the main rule is gone through row by row.
ghost use Rattle.std.specs.Prelude.{◌≡◌};
ghost use Rattle.record.specs.Model.Terms.{first_in_thousandths, row_in_thousandths};
ghost use Rattle.record.specs.Laws.RowLaws.{row_of};
ghost use Rattle.reader.specs.Promises.{Retold};

use record::Row;
use record::kinds::Kind;
use record::tables::Cell;

// The first number of a row: of a double at 5f, the bits of the thousandths that its four bytes hold.
fn first_of(message: &[u8], row: Row) -> u64
    ensures { result ≡ first_in_thousandths message.now (row_of row) }
{
    let first = row.first;
    let place = row.place;
    if row.kind != Kind::Double as u64 {
        return first;
    }
    let len = message.len();
    if len < 5 {
        return first;
    }
    if ((len - 5) as u64) < place {
        return first;
    }
    let at = place as usize;
    if message[at] != 0x5f {
        return first;
    }
    numbers::doubles::thousandths(wire::four_at(message, at + 1) as u32)
}

// The row in thousandths.
pub(crate) fn in_thousandths(message: &[u8], row: Row) -> Row
    ensures { row_of result ≡ row_in_thousandths message.now (row_of row) }
{
    Row {
        first: first_of(message, row),
        ..row
    }
}

// The first `rows` rows of a table, each in thousandths.
pub(crate) fn retell<C: Cell>(message: &[u8], table: &mut [C], rows: usize)
    ensures { Retold C.layout message.now (C.numbers table.old) rows (C.numbers table.new) }
{
    for index in 0..rows {
        if let Some(row) = C::row_at(table, index) {
            C::store_row(table, index, in_thousandths(message, row));
        }
    }
}
