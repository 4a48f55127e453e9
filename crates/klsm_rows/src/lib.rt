//! The rows of a text, and the numbers in them: what the formats of scripts and of instances share.
//!
//! A row is a record of the text, as the library `csv` reads it: comma, double quotes, no header row,
//! no trimming, and as many fields as it has. A caller reads one row after another into a record of
//! its own, so that all rows take the memory of the longest, and judges the fields itself:
//!
//! ```text
//! let mut rows = rows_of(alloc, text);
//! let mut row = ByteRecord::new(alloc);
//! while read_row(&mut rows, &mut row)? {
//!     let key = row.get(2).and_then(number_in);
//! }
//! ```
//!
//! Rows are read from csv's own `Reader`, so a caller can ask it for its place, and no private field
//! of this crate stands in a contract above it.
//!
//! - **No row is passed over, and none is made up**: `HasRead` says of a reader which rows of its text
//!   were read, and the contract of `read_row` that each row read is the next of them, and that at the
//!   end they are all. The first row is one like any other: the contract of `rows_of`.
//! - **A number is a numeral below 2^64**, of digits alone, with no sign: `number_of`, which
//!   `number_in` computes.
//! - **A row is refused only where the reader has failed**: the contract of `read_row`. Which of the two
//!   faults it was no contract says.
#![tactic(auto)]

mod number;
mod rows;

pub use number::number_in;
pub use rows::{RowFault, read_row, rows_of};
