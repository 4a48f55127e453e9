//! The program on its words.
ghost use Rattle.std.specs.Prelude.{◌≡◌, Some, IfOk, drop, map, string_bytes};
ghost use Rattle.klsm_words.specs.CommandLine.{IsActionInRange, replay_words};
ghost use Rattle.klsm_tool.specs.Program.{RefusesBytes, Runs, RunsBy, RunsReplayOrLacksMemory};
ghost use Rattle.klsm_tool.specs.Program.{RunsSome, Says};
ghost use Rattle.klsm_tool.specs.Program.{status_of as status_of_end};

use crate::advising::advise_on_end;
use crate::knapsack::knapsack_with;
use crate::live::live_with;
use crate::process_words::process_words;
use crate::replay::replay_with;
use crate::status::Status;
use klsm_board::Open;
use klsm_knapsack::Listeners;
use klsm_progress::{Hint, Progress, Silent};
use klsm_text::{End, NO_MEMORY, write_text};
use klsm_words::{Action, Fault, USAGE, parse};
use std::alloc::{AllocError, Global};
use std::io::{Read, Write};
use std::rt::Env;
use std::sync::Wait;
use std::thread::Threads;

/// Runs the program on the words that its process was given. Of a long run it tells while it lasts.
pub fn run_program<P: Env + AllocGlobal + Wait + Threads + Sync, R: Read + Drop, W: Write>(
    rt: &P,
    reader: R,
    writer: &mut W,
    progress: &impl Progress,
) -> Status
    ensures { RunsSome (R.remaining reader) (W.contents writer.old) (W.contents writer.new)
        result.code }
{
    match process_words(rt) {
        Ok(words) => run_with(rt, words.as_slice(), reader, writer, progress),
        Err(_) => say(writer, NO_MEMORY, EXHAUSTED),
    }
}

/// Runs the program on its words, the first of which is its own name, and returns its status: 0 if all is done, 1 if a row
/// is refused, 2 for a fault of the command line, 3 if memory is wanted, and 4 if reading or writing failed.
pub fn run_words<R: Read + Drop, W: Write>(
    rt: &(impl AllocGlobal + Wait + Threads + Sync),
    words: &[String],
    reader: R,
    writer: &mut W,
) -> u8
    ensures { Runs (map string_bytes (drop 1 words.now)) (R.remaining reader)
        (W.contents writer.old) (W.contents writer.new) result }
{
    let Ok(bytes) = bytes_of(rt.alloc(), without_name(words)) else {
        return say(writer, NO_MEMORY, EXHAUSTED).code();
    };
    run_with(rt, bytes.as_slice(), reader, writer, &Silent).code()
}

// The words after the program's own name.
fn without_name(words: &[String]) -> &[String]
    ensures { result.now ≡ drop 1 words.now }
{
    if words.is_empty() {
        return words;
    }
    &words[1..]
}

// Words as bytes.
fn bytes_of(alloc: Global, words: &[String]) -> Result<Vec<Vec<u8>>, AllocError>
    ensures { IfOk result (λ all.
        map (λ word. word.items) all.items ≡ map string_bytes words.now) }
{
    let mut all = Vec::new(alloc);
    for index in 0..words.len() {
        let mut word = Vec::new(alloc);
        word.extend_from_slice(words[index].as_bytes())?;
        all.push(word)?;
    }
    Ok(all)
}

/// Runs the program on its words, which are those after its own name and may be any bytes, tells of a long run, and
/// returns its status, as `run_words` does.
pub fn run_with<R: Read + Drop, W: Write>(
    rt: &(impl AllocGlobal + Wait + Threads + Sync),
    words: &[Vec<u8>],
    reader: R,
    writer: &mut W,
    progress: &impl Progress,
) -> Status
    ensures runs { Runs (map (λ word. word.items) words.now) (R.remaining reader)
        (W.contents writer.old) (W.contents writer.new) result.code }
    ensures replays { map (λ word. word.items) words.now ≡ replay_words
        → RunsReplayOrLacksMemory (R.remaining reader)
        (W.contents writer.old) (W.contents writer.new) result.code }
{
    match parse(rt.alloc(), words) {
        Ok(action) => run_action(rt, &action, reader, writer, progress),
        Err(Fault::Said { text, status }) => {
            refuse_words(writer, text.as_bytes(), status, progress, WORDS)
        }
        Err(Fault::UnknownPick) => refuse_words(writer, UNKNOWN_PICK, USAGE, progress, PICKS),
        Err(Fault::BadRefill) => refuse_words(writer, BAD_REFILL, USAGE, progress, REFILLS),
        Err(Fault::NotText) => refuse_bytes(writer),
        Err(Fault::NoMemory) => say(writer, NO_MEMORY, EXHAUSTED),
    }
}

// Does what the words ask for.
fn run_action<R: Read + Drop, W: Write>(
    rt: &(impl AllocGlobal + Wait + Threads + Sync),
    action: &Action,
    reader: R,
    writer: &mut W,
    progress: &impl Progress,
) -> Status
    requires { IsActionInRange action.now }
    ensures { RunsBy (Some action.now) (R.remaining reader) (W.contents writer.old)
        (W.contents writer.new) result.code }
{
    progress.reads();
    let listeners = Listeners {
        gate: &Open,
        progress,
    };
    match action {
        Action::Replay(settings) => {
            let report = replay_with(rt, reader, writer, settings, progress);
            ended(progress, report.end)
        }
        Action::Live(settings) => {
            let report = live_with(rt, reader, writer, settings, &listeners);
            ended(progress, report.end)
        }
        Action::Knapsack(search) => {
            let report = knapsack_with(rt, reader, writer, search, &listeners);
            ended(progress, report.end)
        }
    }
}

// The status of a run that ended so, of which a user is told which stream has failed.
fn ended(progress: &impl Progress, end: End) -> Status
    ensures { result.code ≡ status_of_end end }
{
    advise_on_end(progress, end);
    status_of(end)
}

fn refuse_bytes<W: Write>(writer: &mut W) -> Status
    ensures { RefusesBytes (W.contents writer.old) (W.contents writer.new) result.code }
{
    say(writer, NOT_TEXT, USAGE)
}

// Answers words that are no run, and tells a user what was expected where they are at fault.
fn refuse_words<W: Write>(
    writer: &mut W,
    text: &[u8],
    status: u8,
    progress: &impl Progress,
    advice: &'static str,
) -> Status
    ensures { Says (W.contents writer.old) (W.contents writer.new) text.now status result.code }
{
    let answered = say(writer, text, status);
    if status == USAGE {
        progress.advise(&Hint::of(advice));
    }
    answered
}

fn say<W: Write>(writer: &mut W, text: &[u8], status: u8) -> Status
    ensures { Says (W.contents writer.old) (W.contents writer.new) text.now status result.code }
{
    if write_text(writer, text) < text.len() {
        Status::new(FAULT)
    } else {
        Status::new(status)
    }
}

fn status_of(end: End) -> Status
    ensures { result.code ≡ status_of_end end }
{
    Status::new(match end {
        End::Done => 0,
        End::Refused => REFUSED,
        End::Full | End::NoMemory => EXHAUSTED,
        End::ReadFault | End::WriteFault => FAULT,
    })
}

const REFUSED: u8 = 1;

const EXHAUSTED: u8 = 3;

const FAULT: u8 = 4;

const NOT_TEXT: &[u8] = b"error: a word is not UTF-8\n\nFor more information, try '--help'.\n";

const UNKNOWN_PICK: &[u8] = b"refused: pick\n";

const BAD_REFILL: &[u8] = b"refused: refill\n";

const WORDS: &str = "rows come on standard input, as in: klsm replay < FILE; --threads is 1 to 16, \
    --k 0 to 64, and --refill 0 to --k";

const PICKS: &str = "--pick is first, last or random";

const REFILLS: &str = "--refill is at most the number of --k";
