//! The rows of a script, kept for the threads that are to run them.
ghost use Rattle.std.specs.Prelude.{◌≡◌, ◌<◌, ◌≤◌, ◌+◌, ℕ, List, [], length, map, Option, IfOk, IfErr};
ghost use Rattle.klsm_run.specs.declared.limits.TheConstants.{PROGRAM_THREADS};
ghost use Rattle.klsm_rows.specs.Rows.{Row};
ghost use Rattle.klsm_text.specs.Script.{row_limit};
ghost use Rattle.klsm_text.specs.Reading.{HasReadScript};
ghost use Rattle.klsm_text.specs.Keeping.{AreKept, KeepsNoMore, KeepsOn, KeepsOne};
ghost use Rattle.klsm_text.specs.ThreadRows.{AreAccepted};

use crate::judge::request_of;
use crate::request::{Operation, Refusal, Request};
use crate::script::Script;
use crate::stop::{Closing, Stop};
use klsm_progress::{Counted, Pace, Progress};
use std::alloc::{AllocError, Global};
use std::io::Read;

/// The most rows of a script.
pub const ROW_LIMIT: u64 = 1_000_000;

/// A row of one thread. It has 24 bytes.
#[derive(Clone, Copy)]
pub struct ThreadRow {
    is_deletion: bool,
    key: u64,
    load: u64,
}

impl ThreadRow {
    ghost use Rattle.std.specs.Prelude.{◌≡◌};
    ghost use Rattle.klsm_text.specs.Keeping.{operation_in};

    fn new(operation: Operation) -> Self
        ensures { operation_in result ≡ operation }
    {
        match operation {
            Operation::Insert { key, load } => ThreadRow {
                is_deletion: false,
                key,
                load,
            },
            Operation::Delete => ThreadRow {
                is_deletion: true,
                key: 0,
                load: 0,
            },
        }
    }

    /// What the row asks for.
    #[inline]
    pub fn operation(&self) -> Operation
        ensures { result ≡ operation_in self.now }
    {
        if self.is_deletion {
            Operation::Delete
        } else {
            Operation::Insert {
                key: self.key,
                load: self.load,
            }
        }
    }
}

/// A list of rows for each thread, with no row yet.
pub fn no_rows(alloc: Global, threads: usize) -> Result<Vec<Vec<ThreadRow>>, AllocError>
    ensures { IfOk result (λ lists. AreKept threads [] (map (λ list. list.items) lists.items)) }
{
    let mut lists = Vec::with_capacity(alloc, threads)?;
    for _ in 0..threads {
        lists.push(Vec::new(alloc))?;
    }
    Ok(lists)
}

/// Reads a whole script, and keeps each row for its thread. Says why it read no further, and the
/// number of the row that it did not keep: at the end of the script, that of the row behind it. Behind
/// a row that is refused it reads none.
pub fn keep_rows<R: Read + Drop>(
    script: &mut Script<R>,
    lists: &mut [Vec<ThreadRow>],
    progress: &impl Progress,
) -> Closing
    requires { length lists.old ≤ PROGRAM_THREADS }
    ensures { (threads : ℕ) (input : Option (List ℕ))
        → HasReadScript R.remaining input [] script.old
        → AreKept threads [] (map (λ list. list.items) lists.old)
        → KeepsNoMore R.remaining threads input (map (λ list. list.items) lists.new) script.new
        result.row result.stop }
{
    progress.begins(None);
    let mut pace = Pace::new(Counted::RowsRead);
    for number in 0..ROW_LIMIT {
        if let Err(stop) = keep_row(script, lists) {
            return Closing::at(stop, number + 1);
        }
        pace.count(progress);
    }
    let stop = match script.next_row() {
        Ok(()) => Stop::Refused(Refusal::Rows),
        Err(stop) => stop,
    };
    Closing::at(stop, ROW_LIMIT + 1)
}

// Reads the next row, and keeps it for its thread.
fn keep_row<R: Read + Drop>(
    script: &mut Script<R>,
    lists: &mut [Vec<ThreadRow>],
) -> Result<(), Stop>
    requires { length lists.old ≤ PROGRAM_THREADS }
    ensures { (threads : ℕ) (input : Option (List ℕ)) (rows : List Row)
        → HasReadScript R.remaining input rows script.old → AreAccepted threads rows
        → length rows < row_limit → AreKept threads rows (map (λ list. list.items) lists.old)
        → KeepsOn R.remaining threads input rows (map (λ list. list.items) lists.new)
        script.new result }
{
    script.next_row()?;
    match request_of(&script.row, lists.len()) {
        Ok(request) => keep(lists, request),
        Err(why) => Err(Stop::Refused(why)),
    }
}

fn keep(lists: &mut [Vec<ThreadRow>], request: Request) -> Result<(), Stop>
    requires { request.thread < length lists.old }
    ensures kept { IfOk result (λ _. KeepsOne request (map (λ list. list.items) lists.old)
        (map (λ list. list.items) lists.new)) }
    ensures memory { IfErr result (λ why. why ≡ Stop.NoMemory) }
{
    let row = ThreadRow::new(request.operation);
    match lists[request.thread as usize].push(row) {
        Ok(()) => Ok(()),
        Err(_) => Err(Stop::NoMemory),
    }
}
