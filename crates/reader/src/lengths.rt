// 2026-06: the length of the record's shortest message is the sum of the bytes that are each row's own. It wraps; that
// it never does is known once the message is read (record's proofs/ForReader/ReadLengths.antt).
ghost use Rattle.std.specs.Prelude.{◌≡◌, List, map};
ghost use Rattle.record.specs.Laws.RowLaws.{row_of};
ghost use Rattle.record.specs.Laws.RowLengths.{row_length, object_length};
ghost use Rattle.reader.specs.Slots.{RowRead, added, added_swaps, rule_of};

use crate::slots::Slot;
use crate::thousandths::in_thousandths;
use record::Row;
use record::kinds::Kind;
use scalar::{Encoding, Sort};

// A sum of rows' lengths: by the main rule of 5f, or in thousandths.
#[derive(Clone, Copy)]
pub(crate) struct Length<const IN_THOUSANDTHS: bool> {
    pub sum: u64,
}

// The first of them has the lengths of all rows; where none is lent, no row is measured.
impl<const IN_THOUSANDTHS: bool> Slot for Length<IN_THOUSANDTHS> {
    ghost numbers = { map (λ x. x.sum) };

    ghost kept = { added (rule_of IN_THOUSANDTHS) };

    #[inline(always)]
    fn keep(message: &[u8], slots: &mut [Length<IN_THOUSANDTHS>], _index: usize, row: Row) {
        if let Some(length) = slots.first_mut() {
            let row = if IN_THOUSANDTHS {
                in_thousandths(message, row)
            } else {
                row
            };
            length.sum = length.sum.wrapping_add(row_length(message, row) as u64);
        }
    }

    ghost swaps = { added_swaps (rule_of IN_THOUSANDTHS) };
}

// The bytes of an object's code, and of its class where the code does not say it.
fn object_length(class: u64) -> usize
    ensures { result ≡ object_length class }
{
    if class < 16 {
        return 1;
    }
    1 + numbers::number_length(Sort::Int, class)
}

// The bytes that are a row's own, by the main rule.
#[tactic(auto, unfolding(record::specs::Laws::RowLengths::row_length, flow::specs::Flow::pick))]
fn row_length(message: &[u8], row: Row) -> usize
    requires { RowRead message.now (row_of row) }
    ensures { result ≡ row_length message.now (row_of row) }
{
    let Ok(kind) = Kind::try_from(row.kind) else {
        return 0;
    };
    let at = row.place as usize;
    let units = row.first as usize;
    match kind {
        Kind::Null => numbers::number_length(Sort::Null, row.first),
        Kind::False => numbers::number_length(Sort::False, row.first),
        Kind::True => numbers::number_length(Sort::True, row.first),
        Kind::Int | Kind::TypeNumber => numbers::number_length(Sort::Int, row.first),
        Kind::Long => numbers::number_length(Sort::Long, row.first),
        Kind::Double => numbers::number_length(Sort::Double, row.first),
        Kind::Date => numbers::number_length(Sort::Date, row.first),
        Kind::Text | Kind::ClassName | Kind::FieldName | Kind::TypeName => {
            texts::passed_length(Encoding::Utf8, message, at, units, row.second as usize)
        }
        Kind::Bytes => texts::passed_length(Encoding::Binary, message, at, units, units),
        Kind::List | Kind::TypedList => if row.first < 8 { 1 } else { 2 },
        Kind::Map | Kind::TypedMap => 2,
        Kind::Object => object_length(row.first),
        Kind::Reference | Kind::Class => 1 + numbers::number_length(Sort::Int, row.first),
    }
}
