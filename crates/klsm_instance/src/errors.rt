//! Why an instance is not read.

use thiserror::Error;

/// Why an instance is not read. Within one row the first four are tried in this order.
#[derive(Clone, Copy, Debug, PartialEq, Eq, Error)]
pub enum ReadError {
    /// This row has not two fields, or the first row does not begin with `capacity`, or there is no
    /// first row.
    #[error("row {0} has not the right fields")]
    BadRow(u64),
    /// There is a 33rd thing.
    #[error("there are more than 32 things")]
    TooMany,
    /// This row has a field that is no number.
    #[error("row {0} has a field that is no number")]
    BadNumber(u64),
    /// This row has a number that is too small or too large.
    #[error("row {0} has a number that is out of range")]
    OutOfRange(u64),
    /// The reader failed.
    #[error("the reader failed")]
    ReadFault,
    /// A growth was refused.
    #[error("out of memory")]
    NoMemory,
}
