//! Measures the queue for one thread, and a member that meets no other, beside the kit's binary heap.
//!
//! With the word `times`, each workload is run on a heap and on a queue for one thread, one after the other
//! in each of five rounds. It prints the medians, in tenths of nanoseconds an operation; so it does for
//! insertions alone, for own parts that are filled and emptied, and for an own part with its lock and
//! without. Without words it makes small runs, and prints what does not depend on time.
#![tactic(auto)]

mod agreement;
mod contenders;
mod on_board;
mod own;
mod pair;
mod rounds;
mod times;
mod workloads;

use std::env::Args;
use std::process::ExitCode;
use std::sync::Wait;
use std::time::Clock;
use std::{env, io};

// What is said where the words are none of these.
const USAGE: &str = "words: none, or times";

fn main(rt: HostRuntime) -> io::Result<ExitCode> {
    let mut words = env::args(&rt)?;
    let _path = words.next();
    if print(&rt, words)?.is_some() {
        return Ok(ExitCode::SUCCESS);
    }
    println!(rt; "{USAGE}")?;
    Ok(ExitCode::FAILURE)
}

// Prints what the words ask for. `None` where they ask for nothing.
fn print<R: Print + Clock + AllocGlobal + Wait>(rt: &R, mut words: Args) -> io::Result<Option<()>> {
    let Some(word) = words.next() else {
        return agreement::print(rt).map(Some);
    };
    match word.as_str() {
        "times" => times::print(rt).map(Some),
        _ => Ok(None),
    }
}
