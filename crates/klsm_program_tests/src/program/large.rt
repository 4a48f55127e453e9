//! Writes of as much as is ever pending at once, which is 65,536 bytes, where the output takes a part of them.
//!
//! What a contract says of a write is met by one that gives up too early: no contract says that the writer failed.

use klsm_test_support::{Input, Output, add_words};
use klsm_tool::{End, Pick, Report, ScriptSettings, Silent, replay_with};
use std::alloc::Global;

/// How many items are inserted, and then deleted.
const ITEMS: u64 = 1050;

/// How many bytes are read at a time: 150 rows that insert, or all rows that delete. So as many answers to these are
/// pending at once as there is room for.
const AT_A_TIME: usize = 6900;

/// The settings of a run whose words name none.
const USUAL: ScriptSettings = ScriptSettings {
    threads: 1,
    k: 64,
    refill: 0,
    balance: 0,
    pick: Pick::First,
    seed: 1,
};

/// A script, its answers, and how many bytes of these go to its insertions.
#[derive(Drop)]
struct Large {
    script: Vec<u8>,
    text: Vec<u8>,
    first: usize,
}

fn large_script(alloc: Global) -> Option<Large> {
    let mut script = Vec::new(alloc);
    let mut text = Vec::new(alloc);
    for number in 0..ITEMS {
        add_words(&mut script, &[("0,i,", u64::MAX), (",", u64::MAX)], "\n")?;
        add_words(&mut text, &[("0 i ", u64::MAX), (" 0.", number)], "\n")?;
    }
    let first = text.len();
    for number in 0..ITEMS {
        script.extend_from_slice(b"0,d,,\n").ok()?;
        let words = [("0 d ", u64::MAX), (" 0.", number), (" load ", u64::MAX)];
        add_words(&mut text, &words, " skip 0\n")?;
    }
    text.extend_from_slice(b"max skip 0 bound 64\n").ok()?;
    Some(Large {
        script,
        text,
        first,
    })
}

/// How a replay of this script ends.
fn replayed(rt: &impl AllocGlobal, large: &Large, output: &mut Output) -> Report {
    let input = Input {
        left: large.script.as_slice(),
        at_a_time: AT_A_TIME,
        fails: false,
    };
    replay_with(rt, input, output, &USUAL, &Silent)
}

/// Whether an output that takes so many bytes at a time, and fails after so many of the answers to deletions, has all
/// that it could take, and the run says so.
fn is_cut_off(rt: &impl AllocGlobal, at_a_time: usize, more: usize) -> Option<bool> {
    let large = large_script(rt.alloc())?;
    let room = large.first.saturating_add(more);
    let mut output = Output {
        room,
        at_a_time,
        ..Output::ample(rt.alloc())
    };
    let report = replayed(rt, &large, &mut output);
    let end = End::WriteFault;
    let written = room as u64;
    Some(
        report == Report { end, written }
            && output.refused == 1
            && output.is_filled_by(large.text.as_slice()),
    )
}

#[test]
fn a_write_that_stops_behind_many_bytes_leaves_all_of_these(rt: HostRuntime) {
    for at_a_time in [5_000, 32_768, 65_536] {
        assert!(rt; is_cut_off(&rt, at_a_time, 40_000) == Some(true));
        assert!(rt; is_cut_off(&rt, at_a_time, 60_000) == Some(true));
    }
}

/// Whether an output that takes so many bytes at a time takes the whole text.
fn takes_all(rt: &impl AllocGlobal, at_a_time: usize) -> Option<bool> {
    let large = large_script(rt.alloc())?;
    let mut output = Output {
        at_a_time,
        ..Output::ample(rt.alloc())
    };
    let report = replayed(rt, &large, &mut output);
    let end = End::Done;
    let written = large.text.len() as u64;
    Some(
        report == Report { end, written }
            && output.refused == 0
            && output.taken.as_slice() == large.text.as_slice(),
    )
}

#[test]
fn short_writes_of_many_bytes_give_the_whole_text(rt: HostRuntime) {
    for at_a_time in [5_000, 32_768, 40_000, 65_536] {
        assert!(rt; takes_all(&rt, at_a_time) == Some(true));
    }
}
