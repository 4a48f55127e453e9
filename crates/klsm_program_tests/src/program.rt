//! What no contract says of a run of the program, and no call of it from outside can bring about
//! or see: faults in mid-stream, what waits for what, and what threads do.
//!
//! Its answers to whole inputs are cases of data, in `tests/` at the root of the repository.

mod faults;
mod knapsack;
mod large;
mod live;
mod order;
mod process;
mod progress;
mod refused;
mod repeated;
mod replayed;
mod threads;
mod waiting;
mod worked;

use klsm_test_support::{Input, Output};
use klsm_tool::{Silent, run_program};
use process::Process;
use std::alloc::Global;
use std::io::Read;
use std::sync::Wait;
use std::thread::Threads;

/// The words of a process that answers a script.
const REPLAY: &[&[u8]] = &[b"klsm", b"replay"];

/// The status of the program as a process of these words.
fn run(
    rt: &(impl Wait + Threads + Sync),
    alloc: Global,
    words: &[&[u8]],
    input: impl Read + Drop,
    output: &mut Output,
) -> u8 {
    run_program(&(Process { rt, words }, alloc), input, output, &Silent).code()
}

/// Whether the program ends with this status, and this text is all that it writes.
fn gives(
    rt: &(impl Wait + Threads + Sync),
    alloc: Global,
    words: &[&[u8]],
    input: Input,
    status: u8,
    text: &[u8],
) -> bool {
    let mut output = Output::ample(alloc);
    run(rt, alloc, words, input, &mut output) == status && output.taken.as_slice() == text
}

/// Words, an input, the status of the program and all that it writes.
type Told = (&'static [&'static [u8]], &'static [u8], u8, &'static [u8]);

/// Whether each row goes as it has to.
fn all_go(rt: &(impl Wait + Threads + Sync), alloc: Global, rows: &[Told]) -> bool {
    for (words, input, status, text) in rows {
        if !gives(rt, alloc, words, Input::whole(input), *status, text) {
            return false;
        }
    }
    true
}
