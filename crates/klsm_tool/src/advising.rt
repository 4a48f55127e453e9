//! What a user at a terminal is told beside the answer.

use csv::ByteRecord;
use klsm_knapsack::ReadError;
use klsm_progress::{Hint, Progress};
use klsm_text::{Closing, End, Stop, row_hint};

/// Tells of a row that is refused what was expected of it. It is the one that was read last.
pub(crate) fn advise_on_row(progress: &impl Progress, closing: &Closing, row: &ByteRecord) {
    if let Stop::Refused(why) = closing.stop {
        progress.advise(&row_hint(row, closing.row, why));
    }
}

/// Tells of an instance that is refused what was expected of its row.
pub(crate) fn advise_on_instance(progress: &impl Progress, why: ReadError) {
    let (row, advice) = match why {
        ReadError::BadRow(1) => (1, "the first row is capacity,C"),
        ReadError::BadRow(row) => (row, "two fields are expected, a value and a weight"),
        ReadError::TooMany => (34, "an instance has at most 32 things"),
        ReadError::BadNumber(row) => (row, "a number without a sign or a point is expected"),
        ReadError::OutOfRange(1) => (1, "a capacity from 0 to 1000000000 is expected"),
        ReadError::OutOfRange(row) => (
            row,
            "a value from 1 to 1000000 and a weight from 1 to 1000000000 are expected",
        ),
        ReadError::ReadFault | ReadError::NoMemory => return,
    };
    progress.advise(&Hint {
        row,
        field: 0,
        holds: b"",
        advice,
    });
}

/// Tells of a fault which stream has failed.
pub(crate) fn advise_on_end(progress: &impl Progress, end: End) {
    match end {
        End::ReadFault => progress.advise(&Hint::of("cannot read standard input")),
        End::WriteFault => progress.advise(&Hint::of(CANNOT_WRITE)),
        _ => {}
    }
}

const CANNOT_WRITE: &str = "cannot write to standard output: it is closed, or its disk is full";
