//! What a user is told of a row that is refused.

use crate::request::Refusal;
use csv::ByteRecord;
use klsm_progress::Hint;
use klsm_rows::number_in;

/// What was expected of the row of this number, which is refused for this reason. The row may be the one
/// that was read last only.
pub fn row_hint(row: &ByteRecord, number: u64, why: Refusal) -> Hint<'_> {
    let place = match why {
        Refusal::Rows => return Hint::of("a script has at most 1000000 rows"),
        Refusal::Fields => {
            return Hint {
                row: number,
                field: 0,
                holds: b"",
                advice: fields_advice(row),
            };
        }
        Refusal::Thread => 0,
        Refusal::Operation => 1,
        Refusal::Key => 2,
        Refusal::Load => 3,
    };
    let holds = row.get(place).unwrap_or(b"");
    Hint {
        row: number,
        field: place as u32 + 1,
        holds,
        advice: match why {
            Refusal::Thread => thread_advice(holds, number),
            Refusal::Operation => operation_advice(holds),
            _ => number_advice(holds, row.get(1) == Some(b"d")),
        },
    }
}

fn fields_advice(row: &ByteRecord) -> &'static str {
    let is_split = (0..row.len()).any(|index| row.get(index).is_some_and(has_other_separator));
    if is_split {
        "four fields are expected, with commas between them, not tabs or semicolons"
    } else {
        "four fields are expected: THREAD,i,KEY,LOAD or THREAD,d,,"
    }
}

fn has_other_separator(field: &[u8]) -> bool {
    field.contains(&b'\t') || field.contains(&b';')
}

fn thread_advice(field: &[u8], number: u64) -> &'static str {
    if number_in(field).is_some() {
        "a thread's number is expected, below that of --threads, which is 1 where it is not given"
    } else if is_padded(field) {
        "a thread's number is expected; blanks are not trimmed"
    } else if number == 1 {
        "a thread's number is expected; a script has no header row"
    } else {
        "a thread's number is expected"
    }
}

fn operation_advice(field: &[u8]) -> &'static str {
    if is_padded(field) {
        "i or d is expected; blanks are not trimmed"
    } else {
        "i or d is expected"
    }
}

fn number_advice(field: &[u8], is_deletion: bool) -> &'static str {
    if is_deletion {
        "nothing is expected here behind d"
    } else if is_padded(field) {
        "a number is expected; blanks are not trimmed"
    } else {
        "a number from 0 to 18446744073709551615 is expected, without a sign or a point"
    }
}

fn is_padded(field: &[u8]) -> bool {
    field.first() == Some(&b' ') || field.last() == Some(&b' ')
}
