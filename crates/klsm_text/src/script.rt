//! The rows of a script, read one at a time.
ghost use Rattle.std.specs.Prelude.{◌≡◌, ℕ, List, [], ◌∷◌, Option, MatchResult};
ghost use Rattle.csv.specs.Records.{fields_of};
ghost use Rattle.klsm_rows.specs.Rows.{Row};
ghost use Rattle.klsm_text.specs.Reading.{HasReadScript, ReadStops, reader_failed};
ghost use Rattle.klsm_text.specs.Waiting.{HasSentBefore, knows_no_row};

use crate::output::Output;
use crate::row_ends::RowEnds;
use crate::stop::Stop;
use csv::{ByteRecord, Reader};
use klsm_rows::{RowFault, read_row, rows_of};
use std::alloc::Global;
use std::io::Read;

/// A script that is read row by row, each into the same record.
#[derive(Drop)]
pub struct Script<R> {
    rows: Reader<RowEnds<R>>,
    /// How many bytes of the script there are up to where the next row is looked for.
    place: u64,
    pub row: ByteRecord,
}

impl<R: Read + Drop> Script<R> {
    /// The script that `reader` gives, of which no row was read yet.
    pub fn new(alloc: Global, reader: R) -> Self
        ensures { HasReadScript R.remaining (R.remaining reader) [] result }
    {
        Script {
            rows: rows_of(alloc, RowEnds::new(reader)),
            place: 0,
            row: ByteRecord::new(alloc),
        }
    }

    /// Whether the next row may have to be waited for: none that is known to be whole was read
    /// ahead.
    pub fn may_wait(&self) -> bool
        ensures { result ≡ knows_no_row self.now }
    {
        self.place >= self.rows.get_ref().whole_rows_end()
    }

    /// Reads the next row into `row`, and answers why not where there is none. Where it may have to be
    /// waited for, nothing may be pending in the output that the answers go to. The output is only
    /// looked at by the premise.
    pub fn advance(&mut self, output: &Output) -> Result<(), Stop>
        requires sent { HasSentBefore self.old output.now }
        ensures { (input : Option (List ℕ)) (rows : List Row)
            → HasReadScript R.remaining input rows self.old
            → MatchResult result
            (λ _. HasReadScript R.remaining input (fields_of self.new.row ∷ rows) self.new)
            (ReadStops (reader_failed self.new) input rows) }
    {
        self.next_row()
    }

    // The same, where no row is answered before all are read.
    pub(crate) fn next_row(&mut self) -> Result<(), Stop>
        ensures { (input : Option (List ℕ)) (rows : List Row)
            → HasReadScript R.remaining input rows self.old
            → MatchResult result
            (λ _. HasReadScript R.remaining input (fields_of self.new.row ∷ rows) self.new)
            (ReadStops (reader_failed self.new) input rows) }
    {
        let found = read_row(&mut self.rows, &mut self.row);
        self.place = self.rows.position().byte();
        match found {
            Ok(true) => Ok(()),
            Ok(false) => Err(Stop::AtEnd),
            Err(RowFault::NoMemory) => Err(Stop::NoMemory),
            Err(RowFault::ReadFault) => Err(Stop::ReadFault),
        }
    }
}
