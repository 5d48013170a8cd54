// Why a message, a table or a file is refused, and where.
ghost use Rattle.std.specs.Prelude.{◌≡◌};
ghost use Rattle.scalar.specs.Refusals.{number_of};

// The refusals. Their numbers are those of `enum hessian_refusal` in include/hessian.h and of the definitions in
// flow's specs/RefusalNumbers.antt, to which `number` is held. An answer's number is 0 where it accepts.
#[derive(Clone, Copy, PartialEq, Eq)]
pub enum Refusal {
    // The message is empty or too long; the source or the shortest message is too long.
    Length = 1,
    // The message ends where a byte is needed; the place is its length.
    Cut = 2,
    // A byte cannot stand here.
    Byte = 3,
    // A character is not UTF-8, is half a pair, or finds no room; the place is its first byte.
    Utf8 = 4,
    // A list or field count is negative.
    Negative = 5,
    // No such class, type or reference number is given yet.
    Ungiven = 6,
    // Too many lists, maps and objects open, or too many classes, types, or fields of one class.
    Ceiling = 7,
    // Bytes after the record.
    After = 8,
    // Fewer rows, or bytes for the writer, are lent than needed; the count says how many.
    Room = 9,
    // For the writer: the rows are no record, or their fifth numbers are wrong.
    NoRecord = 10,
    // Of the holdings file (2026-01). The file does not begin with the mark.
    Mark = 20,
    // Its version is cut, or none that is known.
    Version = 21,
    // An entry is cut, or the used length is beyond the buffer.
    CutEntry = 22,
    // An entry's message is refused by the reader.
    RefusedEntry = 23,
    // An entry's message is not its record's shortest.
    NotShortest = 24,
    // An entry's message is that of an earlier entry.
    RepeatedEntry = 25,
}

impl Refusal {
    // Its number.
    pub fn number(self) -> u8
        ensures { result ≡ number_of self }
    {
        self as u8
    }
}

// A refusal and its place. The place stands first, since fields lie in the order of the source: in a Result it shares
// its room with the first field of what was read, and the one byte of the refusal would split that number.
#[derive(Clone, Copy, PartialEq, Eq)]
pub struct Refused {
    pub place: usize,
    pub refusal: Refusal,
}
