//! The rows of a text, read one at a time.
ghost use Rattle.std.specs.Prelude.{ℕ, ◌≡◌, ◌≤◌, ◌<◌, ◌+◌, ◌++◌, ◌⊎◌, List, [], ◌∷◌, Option, MatchOption, MatchResult, MatchBool, Ok, true, length};
ghost use Rattle.csv.specs.Reading.{has_failed};
ghost use Rattle.csv.specs.Records.{fields_of};
ghost use Rattle.klsm_instance.specs.declared.errors.ReadError.TheVariants as read_error;
ghost use Rattle.klsm_instance.specs.Selections.{Problem};
ghost use Rattle.klsm_instance.specs.Limits.{IsThing};
ghost use Rattle.klsm_rows.specs.Rows.{Row, AreAllRows, AreFirstRows, HasRead};
ghost use Rattle.klsm_instance.specs.Format.{Give, RefusesInput, capacity_of as capacity_of_row};

use crate::errors::ReadError;
use crate::judge::{capacity_of, thing_of};
use crate::thing::Thing;
use csv::{ByteRecord, Reader};
use klsm_rows::{RowFault, read_row, rows_of};
use std::alloc::Global;
use std::io::Read;

/// A text that is read row by row, each into the same record.
#[derive(Drop)]
pub(crate) struct Rows<R> {
    reader: Reader<R>,
    row: ByteRecord,
}

impl<R: Read + Drop> Rows<R> {
    pub(crate) fn new(alloc: Global, reader: R) -> Self
        ensures { HasRead R.remaining (R.remaining reader) [] result.reader }
    {
        Rows {
            reader: rows_of(alloc, reader),
            row: ByteRecord::new(alloc),
        }
    }

    /// Reads the first row, which gives the capacity.
    pub(crate) fn read_capacity(&mut self) -> Result<u64, ReadError>
        ensures { (input : Option (List ℕ)) → HasRead R.remaining input [] self.old.reader
            → MatchResult result
            (λ capacity. (capacity ≤ 1000000000) × ((row : Row)
            × HasRead R.remaining input (row ∷ []) self.new.reader
            × (capacity_of_row row ≡ Ok capacity)))
            (RefusesInput input) }
    {
        match self.advance() {
            Ok(true) => capacity_of(&self.row),
            Ok(false) => Err(ReadError::BadRow(1)),
            Err(why) => Err(why),
        }
    }

    /// Reads the next row, where there is one, which gives a thing behind `before` others.
    pub(crate) fn read_thing(&mut self, before: usize) -> Result<Option<Thing>, ReadError>
        requires { before ≤ 32 }
        ensures { (input : Option (List ℕ)) (rows : List Row) (p : Problem)
            → HasRead R.remaining input rows self.old.reader → Give rows p
            → length p.things ≡ before → length rows ≡ before + 1
            → MatchResult result
            (λ answer. MatchOption answer (AreAllRows input rows)
            (λ thing. IsThing thing × (before < 32) × ((row : Row)
            × HasRead R.remaining input (row ∷ rows) self.new.reader
            × Give (row ∷ rows)
            (record { capacity = p.capacity; things = p.things ++ thing ∷ [] }))))
            (RefusesInput input) }
    {
        match self.advance() {
            Ok(true) => match thing_of(before, &self.row) {
                Ok(thing) => Ok(Some(thing)),
                Err(why) => Err(why),
            },
            Ok(false) => Ok(None),
            Err(why) => Err(why),
        }
    }

    // Reads the next row into `row`, and answers whether there is one.
    fn advance(&mut self) -> Result<bool, ReadError>
        ensures { (input : Option (List ℕ)) (rows : List Row)
            → HasRead R.remaining input rows self.old.reader
            → MatchResult result
            (λ found. MatchBool found
            (HasRead R.remaining input (fields_of self.new.row ∷ rows) self.new.reader)
            (AreAllRows input rows))
            (λ why. AreFirstRows input rows × (has_failed self.new.reader ≡ true)
            × ((why ≡ read_error.ReadFault) ⊎ (why ≡ read_error.NoMemory))) }
    {
        match read_row(&mut self.reader, &mut self.row) {
            Ok(found) => Ok(found),
            Err(RowFault::NoMemory) => Err(ReadError::NoMemory),
            Err(RowFault::ReadFault) => Err(ReadError::ReadFault),
        }
    }
}
