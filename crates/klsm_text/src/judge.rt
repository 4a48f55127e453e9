//! Judging the rows of a script.
ghost use Rattle.std.specs.Prelude.{◌≡◌, ◌<◌, ◌≤◌, ◌^◌, IfOk};
ghost use Rattle.csv.specs.Records.{fields_of};
ghost use Rattle.klsm_rows.specs.Number.{number_of};
ghost use Rattle.klsm_text.specs.Script.{insertion_of, deletion_of, operation_of, asked_below};
ghost use Rattle.klsm_text.specs.Script.{request_of as request_of_row};

use crate::request::{Operation, Refusal, Request};
use csv::ByteRecord;
use klsm_rows::number_in;

/// How many fields a row has.
const FIELDS: usize = 4;

/// What `row` asks for, where the threads are numbered below `threads`, or the first thing that is
/// wrong with it.
pub fn request_of(row: &ByteRecord, threads: usize) -> Result<Request, Refusal>
    requires { threads ≤ 2 ^ 32 }
    ensures request { result ≡ request_of_row threads (fields_of row.now) }
    ensures below { IfOk result (λ request. request.thread < threads) }
{
    if row.len() != FIELDS {
        return Err(Refusal::Fields);
    }
    let (Some(thread), Some(operation), Some(key), Some(load)) = (
        row.get(0),
        row.get(1),
        row.get(2),
        row.get(3),
    ) else {
        return Err(Refusal::Fields);
    };
    request(threads, thread, operation, key, load)
}

fn request(
    threads: usize,
    thread: &[u8],
    operation: &[u8],
    key: &[u8],
    load: &[u8],
) -> Result<Request, Refusal>
    requires { threads ≤ 2 ^ 32 }
    ensures request { result ≡ asked_below threads (number_of thread.now)
        (operation_of operation.now key.now load.now) }
    ensures below { IfOk result (λ request. request.thread < threads) }
{
    let thread = match number_in(thread) {
        Some(thread) if thread < threads as u64 => thread as u32,
        _ => return Err(Refusal::Thread),
    };
    let operation = judge_operation(operation, key, load)?;
    Ok(Request { thread, operation })
}

fn judge_operation(word: &[u8], key: &[u8], load: &[u8]) -> Result<Operation, Refusal>
    ensures { result ≡ operation_of word.now key.now load.now }
{
    match word {
        b"i" => judge_insertion(key, load),
        b"d" => judge_deletion(key, load),
        _ => Err(Refusal::Operation),
    }
}

fn judge_insertion(key: &[u8], load: &[u8]) -> Result<Operation, Refusal>
    ensures { result ≡ insertion_of (number_of key.now) (number_of load.now) }
{
    let Some(key) = number_in(key) else {
        return Err(Refusal::Key);
    };
    let Some(load) = number_in(load) else {
        return Err(Refusal::Load);
    };
    Ok(Operation::Insert { key, load })
}

fn judge_deletion(key: &[u8], load: &[u8]) -> Result<Operation, Refusal>
    ensures { result ≡ deletion_of key.now load.now }
{
    if !key.is_empty() {
        return Err(Refusal::Key);
    }
    if !load.is_empty() {
        return Err(Refusal::Load);
    }
    Ok(Operation::Delete)
}
