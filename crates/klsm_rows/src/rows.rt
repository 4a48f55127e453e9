//! The rows of a text, read one at a time.
ghost use Rattle.std.specs.Prelude.{ℕ, ◌≡◌, List, [], ◌∷◌, Option, MatchBool, MatchResult, true};
ghost use Rattle.csv.specs.Reading.{has_failed};
ghost use Rattle.csv.specs.Records.{fields_of};
ghost use Rattle.klsm_rows.specs.Rows.{Row, AreAllRows, AreFirstRows, HasRead};

use csv::{ByteRecord, ErrorKind, Reader, ReaderBuilder};
use std::alloc::Global;
use std::io::Read;
use thiserror::Error;

/// Why a row could not be read.
#[derive(Clone, Copy, Debug, PartialEq, Eq, Error)]
pub enum RowFault {
    /// A growth was refused.
    #[error("out of memory")]
    NoMemory,
    /// The reader failed.
    #[error("the reader failed")]
    ReadFault,
}

/// The rows of what `reader` gives, of which none was read yet. No row is a header, and each may have
/// any number of fields.
pub fn rows_of<R: Read + Drop>(alloc: Global, reader: R) -> Reader<R>
    ensures { HasRead R.remaining (R.remaining reader) [] result }
{
    ReaderBuilder::new()
        .has_headers(false)
        .flexible(true)
        .from_reader(alloc, reader)
}

/// Reads the next row into `row`, and answers whether there is one. It takes memory where the row
/// is longer than those before.
pub fn read_row<R: Read + Drop>(
    rows: &mut Reader<R>,
    row: &mut ByteRecord,
) -> Result<bool, RowFault>
    ensures { (input : Option (List ℕ)) (before : List Row)
        → HasRead R.remaining input before rows.old
        → MatchResult result
        (λ found. MatchBool found
        (HasRead R.remaining input (fields_of row.new ∷ before) rows.new)
        (AreAllRows input before))
        (λ _. AreFirstRows input before × (has_failed rows.new ≡ true)) }
{
    match rows.read_byte_record(row) {
        Ok(found) => Ok(found),
        Err(error) => match error.kind() {
            ErrorKind::OutOfMemory => Err(RowFault::NoMemory),
            _ => Err(RowFault::ReadFault),
        },
    }
}
