// An answer to C, by what a call came to.
ghost use Rattle.std.specs.Prelude.{◌≡◌};
ghost use Rattle.scalar.specs.Refusals.{number_of};
ghost use Rattle.scalar.specs.Answers.{report};
ghost use Rattle.reader.specs.Answers.{fill_report};
ghost use Rattle.writer.specs.Answers as writes;
ghost use Rattle.holdings_file.specs.Answers as holdings;
ghost use Rattle.hessian.specs.Packed.{packed, answer, answer_report, Says, Small};

use crate::HessianAnswer;
use holdings_file::{BatchError, Held, HoldingsError, Taken};
use reader::{Filled, ReadError};
use scalar::{Refusal, Unwritten};
use writer::WriteError;

impl HessianAnswer {
    fn accepted(count: usize, place: usize) -> HessianAnswer
        ensures { Says result (answer 0 count place) }
    {
        HessianAnswer {
            number: 0,
            count: count as u64,
            place: place as u64,
        }
    }

    fn refused(refusal: Refusal, count: usize, place: usize) -> HessianAnswer
        ensures { Says result (answer (number_of refusal) count place) }
    {
        HessianAnswer {
            number: u64::from(refusal.number()),
            count: count as u64,
            place: place as u64,
        }
    }

    // As one number.
    pub(crate) fn packed(self) -> u64
        requires { Small self }
        ensures { result ≡ packed (answer_report self) }
    {
        self.number * 0x1_0000_0000_0000 + self.count * 0x100_0000 + self.place
    }
}

// The reader's.
impl From<Result<Filled, ReadError>> for HessianAnswer {
    ghost from_gives = { λ r a. Says a (fill_report r) };

    fn from(read: Result<Filled, ReadError>) -> HessianAnswer {
        match read {
            Ok(filled) => HessianAnswer::accepted(filled.rows, filled.length),
            Err(ReadError::Refused(r)) => HessianAnswer::refused(r.refusal, 0, r.place),
            Err(ReadError::TooFew { needed }) => HessianAnswer::refused(Refusal::Room, needed, 0),
        }
    }
}

// The writer's.
impl From<Result<usize, WriteError>> for HessianAnswer {
    ghost from_gives = { λ r a. Says a (writes.report r) };

    fn from(written: Result<usize, WriteError>) -> HessianAnswer {
        match written {
            Ok(size) => HessianAnswer::accepted(size, 0),
            Err(WriteError::TooLong) => HessianAnswer::refused(Refusal::Length, 0, 0),
            Err(WriteError::NoRecord) => HessianAnswer::refused(Refusal::NoRecord, 0, 0),
            Err(WriteError::TooFew { needed }) => HessianAnswer::refused(Refusal::Room, needed, 0),
        }
    }
}

// Of a content that is copied.
impl From<Result<usize, Unwritten>> for HessianAnswer {
    ghost from_gives = { λ r a. Says a (report r) };

    fn from(copied: Result<usize, Unwritten>) -> HessianAnswer {
        match copied {
            Ok(bytes) => HessianAnswer::accepted(bytes, 0),
            Err(Unwritten::NoRoom { needed }) => HessianAnswer::refused(Refusal::Room, needed, 0),
            Err(Unwritten::NoSuchForm) => HessianAnswer::refused(Refusal::NoRecord, 0, 0),
        }
    }
}

// Of a holdings file that is listed, or to which a record is added.
impl From<Result<Held, HoldingsError>> for HessianAnswer {
    ghost from_gives = { λ r a. Says a (holdings.report r) };

    fn from(held: Result<Held, HoldingsError>) -> HessianAnswer {
        match held {
            Ok(held) => HessianAnswer::accepted(held.count, held.used),
            Err(HoldingsError::Refused(r)) => HessianAnswer::refused(r.refusal, 0, r.place),
            Err(HoldingsError::TooFew { needed }) => HessianAnswer::refused(
                Refusal::Room,
                needed,
                0,
            ),
        }
    }
}

// The same of many records.
impl From<Result<Taken, BatchError>> for HessianAnswer {
    ghost from_gives = { λ r a. Says a (holdings.report_of_batch r) };

    fn from(taken: Result<Taken, BatchError>) -> HessianAnswer {
        match taken {
            Ok(taken) => HessianAnswer::accepted(taken.records, taken.used),
            Err(
                BatchError::Stopped {
                    refusal,
                    records,
                    used,
                },
            ) => HessianAnswer::refused(refusal, records, used),
            Err(BatchError::Refused(r)) => HessianAnswer::refused(r.refusal, 0, r.place),
        }
    }
}
