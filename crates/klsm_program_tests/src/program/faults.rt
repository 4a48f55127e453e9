//! A reader or a writer that fails in mid-stream, in each command, and how many bytes a run then says
//! that it wrote.

use super::knapsack::{INSTANCE, KNAPSACK, LINE};
use super::live::{LIVE, TOTALS};
use super::worked::{ANSWERS, SCRIPT};
use super::{REPLAY, gives, run};
use klsm_board::Open;
use klsm_test_support::{Input, Output};
use klsm_tool::{
    End, Listeners, Pick, Report, ScriptSettings, Search, Silent, knapsack_with, live_with,
    replay_with,
};
use std::alloc::Global;
use std::sync::Wait;
use std::thread::Threads;

/// Words, the bytes of an input that then fails, and all that the program writes: a replay's answers
/// before it, and the one line of another command.
const UNREAD: &[(&[&[u8]], &[u8], &[u8])] = &[
    (REPLAY, b"", b"read fault\n"),
    (REPLAY, b"\n\n", b"read fault\n"),
    (REPLAY, b"0,i,5,50\n", b"0 i 5 0.0\nread fault\n"),
    (REPLAY, b"0,i,5,50\n0", b"0 i 5 0.0\nread fault\n"),
    (
        REPLAY,
        b"0,i,5,50\n0,d,,\n0,i",
        b"0 i 5 0.0\n0 d 5 0.0 load 50 skip 0\nread fault\n",
    ),
    (LIVE, b"", b"read fault\n"),
    (LIVE, b"0,i,5,50\n", b"read fault\n"),
    (LIVE, b"0,i,5,50\n0", b"read fault\n"),
    (KNAPSACK, b"", b"read fault\n"),
    (KNAPSACK, b"capacity,10\n", b"read fault\n"),
    (KNAPSACK, b"capacity,10\n60,5\n5", b"read fault\n"),
];

/// Whether the inputs that give so many bytes at a time are told so.
fn are_told(rt: &(impl Wait + Threads + Sync), alloc: Global, at_a_time: usize) -> bool {
    for (words, left, text) in UNREAD {
        let input = Input {
            left,
            at_a_time,
            fails: true,
        };
        if !gives(rt, alloc, words, input, 4, text) {
            return false;
        }
    }
    true
}

#[test]
fn a_failed_read_follows_what_is_answered_before_it(rt: HostRuntime) {
    for at_a_time in [1, 3, 4096] {
        assert!(rt; are_told(&rt, rt.alloc(), at_a_time));
    }
}

/// Words, an input, and the text that the program writes, or one that every text begins with.
type Written = (&'static [&'static [u8]], &'static [u8], &'static [u8]);

/// Whether an output that refuses after so many bytes has just so many, the first of them those of
/// the text, and the program then tries no further write and ends with status 4.
fn leaves_first(
    rt: &(impl Wait + Threads + Sync),
    alloc: Global,
    (words, input, text): Written,
    room: usize,
    fails: bool,
) -> bool {
    let mut output = Output::refusing(alloc, room, fails);
    let status = run(rt, alloc, words, Input::whole(input), &mut output);
    status == 4 && output.refused == 1 && output.is_filled_by(text)
}

/// The same for each number of bytes below that of the text, and for both kinds of refusal.
fn leaves_any_first(rt: &(impl Wait + Threads + Sync), alloc: Global, written: Written) -> bool {
    for room in 0..written.2.len() {
        if !leaves_first(rt, alloc, written, room, true)
            || !leaves_first(rt, alloc, written, room, false)
        {
            return false;
        }
    }
    true
}

#[test]
fn a_failed_write_leaves_the_first_bytes(rt: HostRuntime) {
    assert!(rt; ANSWERS.len() == 134);
    assert!(rt; leaves_any_first(&rt, rt.alloc(), (REPLAY, SCRIPT, ANSWERS)));
    assert!(rt; leaves_any_first(&rt, rt.alloc(), (LIVE, SCRIPT, TOTALS)));
    assert!(rt; leaves_any_first(&rt, rt.alloc(), (KNAPSACK, INSTANCE, LINE)));
}

/// The settings of a run whose words name none.
const USUAL: ScriptSettings = ScriptSettings {
    threads: 1,
    k: 64,
    refill: 0,
    balance: 0,
    pick: Pick::First,
    seed: 1,
};

/// The same of a search.
const BY_ONE: Search = Search {
    threads: 1,
    k: 16,
    idle: 100,
};

/// A command, which has an input of its own.
#[derive(Clone, Copy)]
enum Command {
    Replay,
    Live,
    Knapsack,
}

/// What a run of a command leaves.
fn report_of(
    rt: &(impl AllocGlobal + Wait + Threads + Sync),
    command: Command,
    output: &mut Output,
) -> Report {
    let listeners = Listeners {
        gate: &Open,
        progress: &Silent,
    };
    match command {
        Command::Replay => replay_with(rt, SCRIPT, output, &USUAL, &Silent),
        Command::Live => live_with(rt, SCRIPT, output, &USUAL, &listeners),
        Command::Knapsack => knapsack_with(rt, INSTANCE, output, &BY_ONE, &listeners),
    }
}

/// Whether a run over an output that refuses after so many bytes says that it wrote just those that
/// the output took.
fn tells_written(
    rt: &(impl AllocGlobal + Wait + Threads + Sync),
    command: Command,
    room: usize,
    fails: bool,
) -> bool {
    let mut output = Output::refusing(rt.alloc(), room, fails);
    let report = report_of(rt, command, &mut output);
    let written = output.taken.len() as u64;
    let end = End::WriteFault;
    report == Report { end, written } && output.taken.len() == room
}

/// The same for each number of bytes below that of the text, and for both kinds of refusal.
fn tells_any_written(
    rt: &(impl AllocGlobal + Wait + Threads + Sync),
    command: Command,
    text: &[u8],
) -> bool {
    for room in 0..text.len() {
        if !tells_written(rt, command, room, true) || !tells_written(rt, command, room, false) {
            return false;
        }
    }
    true
}

#[test]
fn a_run_tells_how_many_bytes_went_out(rt: HostRuntime) {
    assert!(rt; tells_any_written(&rt, Command::Replay, ANSWERS));
    assert!(rt; tells_any_written(&rt, Command::Live, TOTALS));
    assert!(rt; tells_any_written(&rt, Command::Knapsack, LINE));
}

/// Words that are answered with another text, which is longer than 20 bytes.
const OTHERS: &[&[&[u8]]] = &[
    &[b"klsm", b"--help"],
    &[b"klsm", b"lives"],
    &[b"klsm", b"\xff"],
];

#[test]
fn a_failed_write_of_another_text_is_status_4(rt: HostRuntime) {
    for words in OTHERS {
        for fails in [true, false] {
            assert!(rt; leaves_first(&rt, rt.alloc(), (words, SCRIPT, b""), 20, fails));
        }
    }
}

/// Whether an output that takes so many bytes at a time, and no more than the answers have, takes
/// them all.
fn takes_all(rt: &(impl Wait + Threads + Sync), alloc: Global, at_a_time: usize) -> bool {
    let mut output = Output {
        room: 134,
        at_a_time,
        ..Output::ample(alloc)
    };
    let status = run(rt, alloc, REPLAY, Input::whole(SCRIPT), &mut output);
    status == 0 && output.refused == 0 && output.taken.as_slice() == ANSWERS
}

#[test]
fn short_writes_give_the_whole_text(rt: HostRuntime) {
    for at_a_time in [1, 7] {
        assert!(rt; takes_all(&rt, rt.alloc(), at_a_time));
    }
}
