// Reads a message into a table of rows. What a message reads as is in record's specs/Model/Reading.antt, what the
// reader answers in Model/Answers.antt.
#![tactic(auto)]

pub(crate) mod definitions;
pub(crate) mod heads;
pub(crate) mod lengths;
pub(crate) mod slots;
pub(crate) mod thousandths;
pub(crate) mod values;

ghost use Rattle.std.specs.Prelude.{◌≡◌};
ghost use Rattle.scalar.specs.Scalars.{Floats, Thousandths};
ghost use Rattle.record.specs.Model.Answers.{base, base_open_from, as_numbers, as_bytes, shortest_length};
ghost use Rattle.record.specs.Model.Calls.{ReadCall, MeasuredCall};
ghost use Rattle.reader.specs.Answers.{report, shortest, fill_report};
ghost use Rattle.reader.specs.Promises.{OneValueMet, JudgedMet, ReadIntoMet};
ghost use Rattle.reader.specs.Slots.{rule_of};

use crate::lengths::Length;
use crate::slots::Slot;
use crate::values::ValuesRead;
use record::Group;
use record::known::Known;
use record::limits::{CONTAINERS, LONGEST};
use record::tables::Cell;
use scalar::{Refusal, Refused};

// The rows and the bytes of a message that is accepted.
#[derive(Clone, Copy, PartialEq, Eq)]
pub struct Filled {
    pub rows: usize,
    pub length: usize,
}

// The same, and the bytes of the record's shortest message.
#[derive(Clone, Copy, PartialEq, Eq)]
pub struct Accepted {
    pub rows: usize,
    pub length: usize,
    pub shortest: u64,
}

// Why nothing is read: the message is refused; or fewer rows are lent than needed.
#[derive(Clone, Copy, PartialEq, Eq)]
pub enum ReadError {
    Refused(Refused),
    TooFew { needed: usize },
}

impl From<Refused> for ReadError {
    ghost use Rattle.std.specs.Prelude.{◌≡◌};
    ghost use Rattle.reader.specs.declared.ReadError.TheVariants as error;

    ghost from_gives = { λ r e. e ≡ error.Refused r };

    fn from(refused: Refused) -> ReadError {
        ReadError::Refused(refused)
    }
}

// Where reading is: the place in the message, and the row that comes next, which is how many there are so far.
#[derive(Clone, Copy)]
pub(crate) struct Spot {
    pub at: usize,
    pub row: usize,
}

// One run over the message: the one value that it is, with nothing known before it, its rows kept in the slots.
fn read_value<S: Slot>(message: &[u8], slots: &mut [S]) -> Result<ValuesRead, Refused>
    ensures { OneValueMet S.kept message.now (S.numbers slots.old) result (S.numbers slots.new) }
{
    let mut known = Known::new();
    let start = Spot { at: 0, row: 0 };
    values::read_values(
        message,
        slots,
        &mut known,
        start,
        Group::Counted(1),
        CONTAINERS,
    )
}

// Whether the message is accepted, with how many rows.
fn judge<S: Slot>(message: &[u8], slots: &mut [S]) -> Result<usize, Refused>
    ensures { JudgedMet S.kept message.now (S.numbers slots.old) result (S.numbers slots.new) }
{
    let len = message.len();
    if len == 0 || LONGEST < len {
        return Err(Refused {
            refusal: Refusal::Length,
            place: 0,
        });
    }
    let end = read_value(message, slots)?.next;
    if end.at < len {
        return Err(Refused {
            refusal: Refusal::After,
            place: end.at,
        });
    }
    Ok(end.row)
}

// Reads the message into the table, by the main rule of 5f or in thousandths: judges and counts first, and measures if a
// sum is lent, then fills, so that a refusal stores nothing.
fn read_into<C: Cell, S: Slot, const IN_THOUSANDTHS: bool>(
    message: &[u8],
    table: &mut [C],
    sums: &mut [S],
) -> Result<Filled, ReadError>
    ensures { ReadIntoMet S.kept C.layout (rule_of IN_THOUSANDTHS)
        message.now (C.numbers table.old) (S.numbers sums.old)
        result (C.numbers table.new) (S.numbers sums.new) }
{
    let rows = judge(message, sums)?;
    if C::rows(table) < rows {
        return Err(ReadError::TooFew { needed: rows });
    }
    let _ = read_value(message, table);
    if IN_THOUSANDTHS {
        thousandths::retell(message, table, rows);
    }
    Ok(Filled {
        rows,
        length: message.len(),
    })
}

// The same, measured by that rule.
fn measured<C: Cell, const IN_THOUSANDTHS: bool>(
    message: &[u8],
    table: &mut [C],
) -> Result<Accepted, ReadError>
    ensures { MeasuredCall (rule_of IN_THOUSANDTHS) base C.layout
        message.now (C.numbers table.old)
        (report result) (shortest result) (C.numbers table.new) }
{
    let mut sums = [Length::<IN_THOUSANDTHS> { sum: 0 }];
    let filled = read_into::<C, Length<IN_THOUSANDTHS>, IN_THOUSANDTHS>(message, table, &mut sums)?;
    Ok(Accepted {
        rows: filled.rows,
        length: filled.length,
        shortest: sums[0].sum,
    })
}

// The six functions stay beside the generic one, since the promise of each names its rule and its layout, and theorems
// of hessian's specs/Demands.antt speak of each by that.

// Reads the message into a table of five numbers a row.
pub fn read(message: &[u8], table: &mut [u64]) -> Result<Accepted, ReadError>
    ensures { MeasuredCall Floats base as_numbers
        message.now table.old
        (report result) (shortest result) table.new }
{
    measured::<u64, false>(message, table)
}

// Reads the message into a table of 40 bytes a row, each number as eight bytes, the highest first.
pub fn read_bytes(message: &[u8], table: &mut [u8]) -> Result<Accepted, ReadError>
    ensures { MeasuredCall Floats base as_bytes
        message.now table.old
        (report result) (shortest result) table.new }
{
    measured::<u8, false>(message, table)
}

// Reads the message, whose 5f counts thousandths, into a table of five numbers a row.
pub fn read_thousandths(message: &[u8], table: &mut [u64]) -> Result<Accepted, ReadError>
    ensures { MeasuredCall Thousandths base as_numbers
        message.now table.old
        (report result) (shortest result) table.new }
{
    measured::<u64, true>(message, table)
}

// The same, into a table of 40 bytes a row.
pub fn read_bytes_thousandths(message: &[u8], table: &mut [u8]) -> Result<Accepted, ReadError>
    ensures { MeasuredCall Thousandths base as_bytes
        message.now table.old
        (report result) (shortest result) table.new }
{
    measured::<u8, true>(message, table)
}

// Reads the message into a table of 40 bytes a row, and does not measure it, which takes less time.
pub fn fill_bytes(message: &[u8], table: &mut [u8]) -> Result<Filled, ReadError>
    ensures { ReadCall Floats base as_bytes
        message.now table.old
        (fill_report result) table.new }
{
    let mut none = [0u8; 0];
    read_into::<u8, u8, false>(message, table, &mut none)
}

// The same of a message whose 5f counts thousandths.
pub fn fill_bytes_thousandths(message: &[u8], table: &mut [u8]) -> Result<Filled, ReadError>
    ensures { ReadCall Thousandths base as_bytes
        message.now table.old
        (fill_report result) table.new }
{
    let mut none = [0u8; 0];
    read_into::<u8, u8, true>(message, table, &mut none)
}

// The sum of the lengths of the message's rows, by that rule; 0 where the message is refused.
fn length_by<const IN_THOUSANDTHS: bool>(message: &[u8]) -> u64
    ensures { result ≡ shortest_length (rule_of IN_THOUSANDTHS) base base_open_from message.now }
{
    let mut sums = [Length::<IN_THOUSANDTHS> { sum: 0 }];
    match judge(message, &mut sums) {
        Ok(_) => sums[0].sum,
        Err(_) => 0,
    }
}

// The bytes of the shortest message of the record in the message; 0, and not an error, where it is refused: so its
// promise says (shortest_length).
pub fn shortest_length(message: &[u8]) -> u64
    ensures { result ≡ shortest_length Floats base base_open_from message.now }
{
    length_by::<false>(message)
}

// The same of a message whose 5f counts thousandths.
pub fn shortest_length_thousandths(message: &[u8]) -> u64
    ensures { result ≡ shortest_length Thousandths base base_open_from message.now }
{
    length_by::<true>(message)
}
