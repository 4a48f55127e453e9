//! Judging the rows of an instance.
ghost use Rattle.std.specs.Prelude.{◌≡◌, ◌+◌, ◌<◌, ◌≤◌, IfOk};
ghost use Rattle.csv.specs.Records.{fields_of};
ghost use Rattle.klsm_instance.specs.Limits.{IsThing};
ghost use Rattle.klsm_rows.specs.Number.{number_of};
ghost use Rattle.klsm_instance.specs.Format.{capacity_in as capacity_in_field, capacity_of as capacity_of_row, thing_in as thing_in_fields, thing_of as thing_of_row};

use crate::errors::ReadError;
use crate::thing::Thing;
use csv::ByteRecord;
use klsm_rows::number_in;

/// How many fields a row has.
const FIELDS: usize = 2;

/// The first field of the first row.
const CAPACITY: &[u8] = b"capacity";

/// The most things of an instance.
pub(crate) const MOST_THINGS: usize = 32;

/// The greatest value of a thing.
const GREATEST_VALUE: u64 = 1_000_000;

/// The greatest weight of a thing, and the greatest capacity.
const GREATEST_WEIGHT: u64 = 1_000_000_000;

/// The capacity that the first row gives, or the first thing that is wrong with it.
pub(crate) fn capacity_of(row: &ByteRecord) -> Result<u64, ReadError>
    ensures capacity { result ≡ capacity_of_row (fields_of row.now) }
    ensures small { IfOk result (λ capacity. capacity ≤ 1000000000) }
{
    if row.len() != FIELDS {
        return Err(ReadError::BadRow(1));
    }
    let (Some(word), Some(field)) = (row.get(0), row.get(1)) else {
        return Err(ReadError::BadRow(1));
    };
    if word != CAPACITY {
        return Err(ReadError::BadRow(1));
    }
    capacity_in(field)
}

fn capacity_in(field: &[u8]) -> Result<u64, ReadError>
    ensures capacity { result ≡ capacity_in_field (number_of field.now) }
    ensures small { IfOk result (λ capacity. capacity ≤ 1000000000) }
{
    let Some(capacity) = number_in(field) else {
        return Err(ReadError::BadNumber(1));
    };
    if capacity > GREATEST_WEIGHT {
        return Err(ReadError::OutOfRange(1));
    }
    Ok(capacity)
}

/// The thing that a row gives behind the first row and those of `before` things, or the first thing
/// that is wrong with it.
pub(crate) fn thing_of(before: usize, row: &ByteRecord) -> Result<Thing, ReadError>
    requires { before ≤ 32 }
    ensures thing { result ≡ thing_of_row before (fields_of row.now) }
    ensures in_range { IfOk result IsThing }
    ensures few { IfOk result (λ _. before < 32) }
{
    let number = before as u64 + 2;
    if row.len() != FIELDS {
        return Err(ReadError::BadRow(number));
    }
    let (Some(value), Some(weight)) = (row.get(0), row.get(1)) else {
        return Err(ReadError::BadRow(number));
    };
    if before == MOST_THINGS {
        return Err(ReadError::TooMany);
    }
    thing_in(number, value, weight)
}

fn thing_in(number: u64, value: &[u8], weight: &[u8]) -> Result<Thing, ReadError>
    ensures thing { result ≡ thing_in_fields number (number_of value.now) (number_of weight.now) }
    ensures in_range { IfOk result IsThing }
{
    let (Some(value), Some(weight)) = (number_in(value), number_in(weight)) else {
        return Err(ReadError::BadNumber(number));
    };
    if value == 0 || value > GREATEST_VALUE || weight == 0 || weight > GREATEST_WEIGHT {
        return Err(ReadError::OutOfRange(number));
    }
    Ok(Thing { value, weight })
}
