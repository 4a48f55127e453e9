//! A script or an instance over a reader and a writer, with nothing beside it: no refill, no balance, and nobody who is
//! told how far it has come. Each call is a case of one that takes all of these.
ghost use Rattle.std.specs.Prelude.{◌≡◌, ◌≢◌, ◌≤◌};
ghost use Rattle.klsm_run.specs.declared.limits.TheConstants.{PROGRAM_K, PROGRAM_THREADS};
ghost use Rattle.klsm_board.specs.Boards.{AreMembersOf, AreNewMembersOf};
ghost use Rattle.klsm_tool.specs.Courses.{GoInOneHand};
ghost use Rattle.klsm_tool.specs.Crews.{board_sizes, lists_in};
ghost use Rattle.klsm_tool.specs.Knapsack.{Solves};
ghost use Rattle.klsm_tool.specs.Live.{Lives};
ghost use Rattle.klsm_tool.specs.Replay.{Replays, ReplaysAlone};
ghost use Rattle.klsm_tool.specs.Settings.{script_settings, search_by};

use crate::knapsack::knapsack_with;
use crate::live::live_with;
use crate::replay::{replay_script, replay_with};
use crate::settings::Settings;
use klsm_board::{Gate, StandardBoard, StandardMember};
use klsm_knapsack::Listeners;
use klsm_progress::Silent;
use klsm_text::{End, Report, Script};
use klsm_words::Search;
use std::io::{Read, Write};
use std::mem;
use std::sync::Wait;
use std::thread::Threads;

/// Answers the rows of a script in their order over a board of its own, which is finished when all are answered. It
/// waits for no lock, and never ends with `End::Full`.
pub fn replay_over<P: AllocGlobal, R: Read + Drop, W: Write>(
    rt: &P,
    reader: R,
    writer: &mut W,
    settings: &Settings,
) -> Report
    requires some_thread { 1 ≤ settings.now.threads }
    requires threads { settings.now.threads ≤ PROGRAM_THREADS }
    requires k { settings.now.k ≤ PROGRAM_K }
    ensures replays { ReplaysAlone (script_settings settings.now) (R.remaining reader)
        (W.contents writer.old) (W.contents writer.new) result }
    ensures never_full { result.end ≢ End.Full }
{
    replay_with(rt, reader, writer, &settings.script_settings(), &Silent)
}

/// Answers the rows of a script in their order over a board of the caller's: a new one of these settings, with its
/// members in order, which come back in the same order. It waits for no lock, and never ends with `End::Full`.
pub fn replay_on<P: AllocGlobal, R: Read + Drop, W: Write>(
    rt: &P,
    reader: R,
    writer: &mut W,
    settings: &Settings,
    board: &StandardBoard,
    members: &mut Vec<StandardMember>,
) -> Report
    requires sizes { board.now.sizes ≡ board_sizes (script_settings settings.now) }
    requires crew { AreNewMembersOf board.now members.old.items }
    ensures crew { AreMembersOf board.now members.new.items }
    ensures replays { Replays settings.now.threads settings.now.k (lists_in members.new.items)
        (R.remaining reader) (W.contents writer.old) (W.contents writer.new) result }
    ensures course { GoInOneHand (script_settings settings.now) (lists_in members.new.items) }
    ensures never_full { result.end ≢ End.Full }
{
    let taken = mem::replace(members, Vec::new(rt.alloc()));
    // No member is missing.
    let Ok(mut all) = board.gather(taken) else {
        unreachable!();
    };
    let mut script = Script::new(rt.alloc(), reader);
    let settings = settings.script_settings();
    let report = replay_script(rt, &mut script, writer, &settings, board, &mut all, &Silent);
    *members = all.spread(board);
    report
}

/// Reads a whole script, then runs each thread's rows in a thread of its own, which passes the gate first, and writes
/// the totals. It never ends with `End::Full`.
pub fn live_over<P: AllocGlobal + Wait + Threads + Sync, R: Read + Drop, W: Write>(
    rt: &P,
    reader: R,
    writer: &mut W,
    settings: &Settings,
    gate: &impl Gate,
) -> Report
    requires some_thread { 1 ≤ settings.now.threads }
    requires threads { settings.now.threads ≤ PROGRAM_THREADS }
    requires k { settings.now.k ≤ PROGRAM_K }
    ensures lives { Lives (script_settings settings.now) (R.remaining reader)
        (W.contents writer.old) (W.contents writer.new) result }
    ensures never_full { result.end ≢ End.Full }
{
    let listeners = Listeners {
        gate,
        progress: &Silent,
    };
    live_with(rt, reader, writer, &settings.script_settings(), &listeners)
}

/// Reads an instance, solves it with workers in threads of their own, and writes a best selection. Each worker passes the
/// gate first, and ends after `idle` answers "nothing" in a row. It never ends with `End::Full`: a search whose board
/// is full goes on without.
pub fn knapsack_over<P: AllocGlobal + Wait + Threads + Sync, R: Read + Drop, W: Write>(
    rt: &P,
    reader: R,
    writer: &mut W,
    threads: usize,
    k: usize,
    idle: u32,
    gate: &impl Gate,
) -> Report
    requires some_thread { 1 ≤ threads }
    requires threads { threads ≤ PROGRAM_THREADS }
    requires k { k ≤ PROGRAM_K }
    ensures solves { Solves (search_by threads k idle) (R.remaining reader)
        (W.contents writer.old) (W.contents writer.new) result }
    ensures never_full { result.end ≢ End.Full }
{
    let search = Search { threads, k, idle };
    let listeners = Listeners {
        gate,
        progress: &Silent,
    };
    knapsack_with(rt, reader, writer, &search, &listeners)
}
