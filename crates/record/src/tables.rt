// Tables that a caller lends, of numbers or of C's bytes: the rows in them. The definitions are in
// specs/Model/Answers.antt.
ghost use Rattle.std.specs.Prelude.{◌≡◌, ◌+◌, ◌≤◌, ℕ, List, length, refl};
ghost use Rattle.flow.specs.Flow.{put, stored};
ghost use Rattle.wire.specs.BigEndian.{be};
ghost use Rattle.record.specs.Model.Answers.{Layout, as_numbers, as_bytes, lent_rows};
ghost use Rattle.record.specs.Model.Calls.{Keeps};
ghost use Rattle.record.specs.Laws.RowLaws.{row_of};
ghost use Rattle.record.specs.Laws.TableLaws.{RowAt};
ghost use Rattle.record.specs.Laws.Layouts.{numbers_keep, bytes_keep};

use crate::{ROW_BYTES, ROW_NUMBERS, Row};

// What a table is made of: numbers of 64 bits, or bytes.
pub trait Cell: Copy {
    // How the rows lie in the numbers that a table holds.
    ghost layout: { Layout };

    ghost numbers: { List Self → List ℕ };

    // How many rows it has.
    fn rows(table: &[Self]) -> usize
        ensures { result ≡ lent_rows layout (numbers table.now) };

    // The row `index`, where it has one.
    fn row_at(table: &[Self], index: usize) -> Option<Row>
        ensures { RowAt layout (numbers table.now) index result };

    // The row `index` becomes this one, where it has one.
    fn store_row(table: &mut [Self], index: usize, row: Row)
        ensures { numbers table.new ≡ put layout.width layout.encode (numbers table.old) index (row_of row) };

    ghost keeps: { Keeps layout };

    ghost counted: { (t : List Self) → length (numbers t) ≡ length t };
}

impl Cell for u64 {
    ghost layout = { as_numbers };

    ghost numbers = { λ t. t };

    ghost keeps = { numbers_keep };

    ghost counted = { λ t. refl };

    #[inline(always)]
    fn rows(table: &[u64]) -> usize {
        table.len() / ROW_NUMBERS
    }

    #[inline(always)]
    fn row_at(table: &[u64], index: usize) -> Option<Row> {
        let (rows, _) = table.as_chunks::<ROW_NUMBERS>();
        let [kind, place, first, second, after] = *rows.get(index)?;
        Some(Row {
            kind,
            place,
            first,
            second,
            after,
        })
    }

    #[inline(always)]
    fn store_row(table: &mut [u64], index: usize, row: Row) {
        if index < Self::rows(table) {
            // An array of the five is copied to the stack first, which is slower than five stores.
            let at = index * ROW_NUMBERS;
            table[at] = row.kind;
            table[at + 1] = row.place;
            table[at + 2] = row.first;
            table[at + 3] = row.second;
            table[at + 4] = row.after;
        }
    }
}

// The eight bytes of a number, at a place where they fit: one byte swap and one store.
#[inline(always)]
fn store_eight(table: &mut [u8], at: usize, value: u64)
    requires { at + 8 ≤ length table.old }
    ensures { table.new ≡ stored table.old at (be 8 value) }
{
    table[at..at + 8].copy_from_slice(&value.to_be_bytes());
}

impl Cell for u8 {
    ghost layout = { as_bytes };

    ghost numbers = { λ t. t };

    ghost keeps = { bytes_keep };

    ghost counted = { λ t. refl };

    #[inline(always)]
    fn rows(table: &[u8]) -> usize {
        table.len() / ROW_BYTES
    }

    #[inline(always)]
    fn row_at(table: &[u8], index: usize) -> Option<Row> {
        let (rows, _) = table.as_chunks::<ROW_BYTES>();
        let row = rows.get(index)?;
        Some(Row {
            kind: wire::eight_at(row, 0),
            place: wire::eight_at(row, 8),
            first: wire::eight_at(row, 16),
            second: wire::eight_at(row, 24),
            after: wire::eight_at(row, 32),
        })
    }

    #[inline(always)]
    fn store_row(table: &mut [u8], index: usize, row: Row) {
        if index < Self::rows(table) {
            let at = index * ROW_BYTES;
            store_eight(table, at, row.kind);
            store_eight(table, at + 8, row.place);
            store_eight(table, at + 16, row.first);
            store_eight(table, at + 24, row.second);
            store_eight(table, at + 32, row.after);
        }
    }
}
