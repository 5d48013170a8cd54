// The rows of a lent table.
ghost use Rattle.std.specs.Prelude.{◌≡◌, ◌+◌, ◌^◌, ◌<◌};
ghost use Rattle.record.specs.Laws.RowLaws.{row_of};
ghost use Rattle.record.specs.ForWriter.WritingAt.{plainly};
ghost use Rattle.writer.specs.Promises.{FetchMet};

use crate::progress::NoRecord;
use crate::table::Table;
use record::Row;
use record::kinds::Kind;
use record::tables::Cell;

// Whether the fifth number of the row k is that of a definition or a single item; of a list, map or object it is judged
// when its values are written.
fn ends_plainly(r: Row, k: usize) -> bool
    requires { k + 1 < 2 ^ 64 }
    ensures { result ≡ plainly k (row_of r) }
{
    let next = k as u64 + 1;
    if Kind::List as u64 <= r.kind && r.kind <= Kind::Object as u64 {
        return true;
    }
    if r.kind == Kind::Class as u64 {
        return next < r.after && r.after - next - 1 == r.first;
    }
    r.after == next
}

// The row k, if there is one and its fifth number may be right.
pub(crate) fn fetch<C: Cell>(table: &Table<C>, k: usize) -> Result<Row, NoRecord>
    ensures { FetchMet table.now k result }
{
    if table.rows <= k {
        return Err(NoRecord);
    }
    match C::row_at(table.cells, k) {
        Some(row) if ends_plainly(row, k) => Ok(row),
        _ => Err(NoRecord),
    }
}
