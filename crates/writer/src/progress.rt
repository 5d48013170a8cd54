// Where writing is.
use crate::size::Size;
use record::Row;

// The rows are no record.
#[derive(Clone, Copy, PartialEq, Eq)]
pub(crate) struct NoRecord;

// The row that comes next, and how many bytes there are.
#[derive(Clone, Copy)]
pub(crate) struct Progress {
    pub next: usize,
    pub size: Size,
}

// A row that is written, and where writing is.
#[derive(Clone, Copy)]
pub(crate) struct Turn {
    pub row: Row,
    pub at: Progress,
}
