//! The calls behind the commands, over any input and any output.

use super::knapsack::{INSTANCE, LINE};
use super::live::TOTALS;
use super::replay::{ANSWERS, SCRIPT};
use klsm_board::Open;
use klsm_tool::{End, Pick, Report, Settings, knapsack_over, live_over, replay_over};
use std::io::{Read, Write};
use std::sync::Wait;
use std::thread::Threads;

/// The settings of a run without options.
pub(super) const ONE_THREAD: Settings = Settings {
    threads: 1,
    k: 64,
    pick: Pick::First,
    seed: 1,
};

/// A command, which has an input of its own.
#[derive(Clone, Copy)]
pub(super) enum Command {
    Replay,
    Live,
    Knapsack,
}

impl Command {
    /// Its input.
    pub(super) fn input(self) -> &'static [u8] {
        match self {
            Command::Replay => SCRIPT,
            Command::Live => SCRIPT,
            Command::Knapsack => INSTANCE,
        }
    }

    /// All that it writes for that.
    pub(super) fn text(self) -> &'static [u8] {
        match self {
            Command::Replay => ANSWERS,
            Command::Live => TOTALS,
            Command::Knapsack => LINE,
        }
    }
}

/// The report of a command that runs in one thread.
pub(super) fn report_of<R: Read + Drop, W: Write>(
    rt: &(impl AllocGlobal + Wait + Threads + Sync),
    command: Command,
    reader: R,
    writer: &mut W,
) -> Report {
    match command {
        Command::Replay => replay_over(rt, reader, writer, &ONE_THREAD),
        Command::Live => live_over(rt, reader, writer, &ONE_THREAD, &Open),
        Command::Knapsack => knapsack_over(rt, reader, writer, 1, 64, 64, &Open),
    }
}

// Whether a command writes its text, and reports that.
fn writes_its_text(rt: &(impl AllocGlobal + Wait + Threads + Sync), command: Command) -> bool {
    let mut text = Vec::new(rt.alloc());
    let Report { end, written } = report_of(rt, command, command.input(), &mut text);
    text.as_slice() == command.text() && end == End::Done && written == text.len() as u64
}

#[test]
fn each_command_by_its_call(rt: HostRuntime) {
    assert!(rt; writes_its_text(&rt, Command::Replay));
    assert!(rt; writes_its_text(&rt, Command::Live));
    assert!(rt; writes_its_text(&rt, Command::Knapsack));
}
