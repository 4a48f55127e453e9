//! `klsm live`: each thread's rows in a thread of its own.
ghost use Rattle.std.specs.Prelude.{All, ◌≡◌, ◌<◌, ◌≤◌, ℕ, Bool, List, [], length, map};
ghost use Rattle.std.specs.Prelude.{slice_index_or, Option, Some, None, IfErr, IfOk, IfSome};
ghost use Rattle.klsm_run.specs.declared.limits.TheConstants.{PROGRAM_K, PROGRAM_THREADS};
ghost use Rattle.klsm_rows.specs.Rows.{Row, AreAllRows};
ghost use Rattle.klsm_text.specs.Script.{row_limit};
ghost use Rattle.klsm_text.specs.Reports.{GoesOrFails};
ghost use Rattle.klsm_tool.specs.Crews.{lists_in};
ghost use Rattle.klsm_text.specs.ThreadRows.{AreAccepted, HasReadToRefusal, StandsAtRefusal};
ghost use Rattle.klsm_text.specs.Keeping.{AreKept, kept_for};
ghost use Rattle.klsm_text.specs.Reading.{HasReadScript, reader_failed};
ghost use Rattle.klsm_tool.specs.Working.{AreAccounted, HasRunAt, IsReadyAt, gave_up_at, members_in, ready};
ghost use Rattle.klsm_tool.specs.Live.{Lives, LivesBy, RunsScript, outcome_end, outcome_text};
ghost use Rattle.klsm_tool.specs.declared.worker.Worker.{Worker};
ghost use Rattle.klsm_board.specs.Boards.{AreMembersOf, AreNewMembersOf, IsOf};
ghost use Rattle.klsm_board.specs.Finishing.{AreListsAtEnd};

use crate::advising::advise_on_row;
use crate::making::board_for;
use crate::member_calls::Want;
use crate::worker::Worker;
use klsm_board::{Gate, StandardBoard, StandardMember};
use klsm_knapsack::Listeners;
use klsm_progress::Progress;
use klsm_text::{
    Closing, End, Report, Script, Stop, ThreadRow, Totals, keep_rows, no_rows, write_last,
};
use klsm_words::ScriptSettings;
use std::alloc::{AllocError, Global};
use std::io::{Read, Write};
use std::sync::Wait;
use std::thread;
use std::thread::Threads;

/// Reads a whole script, then runs each thread's rows in a thread of its own over one board, each
/// thread's in their order, and writes the totals. Each of these threads passes the gate first.
///
/// A refused row is answered before any thread begins. A thread that finds no memory stops at that
/// row, and the others go on; then `no memory` is written in place of the totals. There is always room, as
/// the shared part can have more items than a script has rows. Where no thread can be made, the rows are run
/// one thread after the other. A long run is told of while it lasts.
pub fn live_with<
    P: AllocGlobal + Wait + Threads + Sync,
    R: Read + Drop,
    W: Write,
    G: Gate,
    H: Progress,
>(
    rt: &P,
    reader: R,
    writer: &mut W,
    settings: &ScriptSettings,
    listeners: &Listeners<G, H>,
) -> Report
    requires some_thread { 1 ≤ settings.now.threads }
    requires threads { settings.now.threads ≤ PROGRAM_THREADS }
    requires k { settings.now.k ≤ PROGRAM_K }
    requires refill { settings.now.refill ≤ settings.now.k }
    ensures { Lives settings.now (R.remaining reader)
        (W.contents writer.old) (W.contents writer.new) result }
{
    let mut script = Script::new(rt.alloc(), reader);
    live_script(rt, &mut script, writer, settings, listeners)
}

/// The same over a script of the caller's, of which no row was read yet. A read fault is answered only
/// where the reader of that has failed. Behind a row that is refused none is read.
pub fn live_script<
    P: AllocGlobal + Wait + Threads + Sync,
    R: Read + Drop,
    W: Write,
    G: Gate,
    H: Progress,
>(
    rt: &P,
    script: &mut Script<R>,
    writer: &mut W,
    settings: &ScriptSettings,
    listeners: &Listeners<G, H>,
) -> Report
    requires some_thread { 1 ≤ settings.now.threads }
    requires threads { settings.now.threads ≤ PROGRAM_THREADS }
    requires k { settings.now.k ≤ PROGRAM_K }
    requires refill { settings.now.refill ≤ settings.now.k }
    requires read { (input : Option (List ℕ)) × HasReadScript R.remaining input [] script.old }
    ensures lives { (input : Option (List ℕ)) → HasReadScript R.remaining input [] script.old
        → LivesBy (reader_failed script.new) settings.now input
        (W.contents writer.old) (W.contents writer.new) result }
    ensures refused { (input : Option (List ℕ)) → HasReadScript R.remaining input [] script.old
        → result.end ≡ End.Refused
        → HasReadToRefusal R.remaining settings.now.threads input script.new }
{
    let outcome = run_script(rt, script, settings, listeners);
    listeners.progress.ended();
    let report = write_outcome(writer, &outcome);
    if let Err(closing) = &outcome {
        advise_on_row(listeners.progress, closing, &script.row);
    }
    report
}

// Writes the line of a run that ended so.
fn write_outcome<W: Write>(writer: &mut W, outcome: &Result<Totals, Closing>) -> Report
    ensures { GoesOrFails (W.contents writer.old) (W.contents writer.new)
        (outcome_text outcome.now) 0 result.written (outcome_end outcome.now) result.end }
{
    match outcome {
        Ok(totals) => write_last(writer, totals.text().as_bytes(), 0, End::Done),
        Err(closing) => write_last(writer, closing.text().as_bytes(), 0, closing.stop.end()),
    }
}

// Reads a whole script and runs it.
fn run_script<P: AllocGlobal + Wait + Threads + Sync, R: Read + Drop, G: Gate, H: Progress>(
    rt: &P,
    script: &mut Script<R>,
    settings: &ScriptSettings,
    listeners: &Listeners<G, H>,
) -> Result<Totals, Closing>
    requires some_thread { 1 ≤ settings.now.threads }
    requires threads { settings.now.threads ≤ PROGRAM_THREADS }
    requires k { settings.now.k ≤ PROGRAM_K }
    requires refill { settings.now.refill ≤ settings.now.k }
    requires read { (input : Option (List ℕ)) × HasReadScript R.remaining input [] script.old }
    ensures runs { (input : Option (List ℕ)) → HasReadScript R.remaining input [] script.old
        → RunsScript (reader_failed script.new) settings.now input result }
    ensures refused { (input : Option (List ℕ)) → HasReadScript R.remaining input [] script.old
        → IfErr result (λ closing.
        StandsAtRefusal R.remaining settings.now.threads input script.new closing.stop) }
{
    let Ok(mut rows) = no_rows(rt.alloc(), settings.threads) else {
        return Err(Closing::at(Stop::NoMemory, 1));
    };
    let closing = keep_rows(script, rows.as_mut_slice(), listeners.progress);
    if closing.stop != Stop::AtEnd {
        return Err(closing);
    }
    // That row stands behind the last one.
    let total = closing.row.saturating_sub(1);
    listeners.progress.begins(Some(total));
    run_rows(rt, rows.as_slice(), settings, listeners)
}

// Runs the rows of all threads over a new board.
fn run_rows<P: AllocGlobal + Wait + Threads + Sync, G: Gate, H: Progress>(
    rt: &P,
    rows: &[Vec<ThreadRow>],
    settings: &ScriptSettings,
    listeners: &Listeners<G, H>,
) -> Result<Totals, Closing>
    requires some_thread { 1 ≤ settings.now.threads }
    requires threads { settings.now.threads ≤ PROGRAM_THREADS }
    requires k { settings.now.k ≤ PROGRAM_K }
    requires refill { settings.now.refill ≤ settings.now.k }
    requires many { length rows.now ≡ settings.now.threads }
    requires script { (all : List Row) × AreAccepted settings.now.threads all
        × AreKept settings.now.threads all (map (λ list. list.items) rows.now) }
    ensures runs { (failed : Bool) (input : Option (List ℕ)) (all : List Row) → AreAllRows input all
        → AreAccepted settings.now.threads all
        → AreKept settings.now.threads all (map (λ list. list.items) rows.now)
        → RunsScript failed settings.now input result }
    ensures memory { IfErr result (λ closing. closing.stop ≡ Stop.NoMemory) }
{
    let Ok((board, members)) = board_for(rt.alloc(), settings) else {
        return Err(Closing::at(Stop::NoMemory, 1));
    };
    let live = LiveRun {
        board: &board,
        rows,
        settings,
        listeners,
    };
    let Ok(crew) = run_members(rt, &live, members) else {
        return Err(Closing::at(Stop::NoMemory, 1));
    };
    if let Some(want) = first_to_give_up(crew.as_slice()) {
        let cause = cause_in_one_hand(rt.alloc(), &board, crew, want);
        return Err(Closing::at(cause, 1));
    }
    finish(rt.alloc(), board, crew)
}

// What all threads of a run are given: their board, the rows of each, how they pick, and who hears of them.
#[derive(Drop)]
struct LiveRun<'a, G, P> {
    board: &'a StandardBoard,
    rows: &'a [Vec<ThreadRow>],
    settings: &'a ScriptSettings,
    listeners: &'a Listeners<'a, G, P>,
}

// Runs the rows of each thread by the member of its number, and gives the workers back.
fn run_members<R: AllocGlobal + Wait + Threads + Sync, G: Gate, P: Progress>(
    rt: &R,
    live: &LiveRun<G, P>,
    members: Vec<StandardMember>,
) -> Result<Vec<Option<Worker>>, AllocError>
    requires some { 0 < length members.items }
    requires many { length live.now.rows.now ≡ length members.items }
    requires few { (t : ℕ)
        → length (kept_for (map (λ list. list.items) live.now.rows.now) t) ≤ row_limit }
    requires quota { row_limit < live.now.board.now.sizes.quota }
    requires of { All (λ member. IsOf member live.now.board.now) members.items }
    requires new { AreNewMembersOf live.now.board.now members.items }
    ensures many { IfOk result (λ crew. length crew.items ≡ length members.items) }
    ensures ran { IfOk result (λ crew. (t : ℕ) (d : Option Worker) → t < length crew.items
        → HasRunAt live.now.settings.now live.now.board.now t
        (kept_for (map (λ list. list.items) live.now.rows.now) t)
        (slice_index_or crew.items t d)) }
{
    let mut crew = crew_of(rt.alloc(), members)?;
    run_all(rt, live, crew.as_mut_slice());
    Ok(crew)
}

// Each worker in a thread of its own. It leaves its place while it runs, so that what it changes at
// each row lies on its own stack, and not beside what the next one changes.
fn run_all<R: Wait + Threads + Sync, G: Gate, P: Progress>(
    rt: &R,
    live: &LiveRun<G, P>,
    crew: &mut [Option<Worker>],
)
    requires some { 0 < length crew.old }
    requires many { length live.now.rows.now ≡ length crew.old }
    requires few { (t : ℕ)
        → length (kept_for (map (λ list. list.items) live.now.rows.now) t) ≤ row_limit }
    requires quota { row_limit < live.now.board.now.sizes.quota }
    requires ready { (t : ℕ) (d : Option Worker) → t < length crew.old
        → IsReadyAt live.now.board.now t (slice_index_or crew.old t d) }
    ensures { (t : ℕ) (d : Option Worker) → t < length crew.old
        → HasRunAt live.now.settings.now live.now.board.now t
        (kept_for (map (λ list. list.items) live.now.rows.now) t)
        (slice_index_or crew.new t d) }
{
    let threads = crew.len();
    thread::for_each_mut(
        rt,
        crew,
        threads,
        &|index, place: &mut Option<Worker>|
            requires { (index < length live.now.rows.now)
                × IsReadyAt live.now.board.now index place.old
                × (length (kept_for (map (λ list. list.items) live.now.rows.now) index)
                < live.now.board.now.sizes.quota) }
            ensures { HasRunAt live.entry.now.settings.now live.entry.now.board.now index
                (kept_for (map (λ list. list.items) live.entry.now.rows.now) index) place.new }
        { run_at(rt, live, place, index) },
    );
}

// The worker at its place, which passes the gate and then runs its rows.
fn run_at<G: Gate, P: Progress>(
    rt: &impl Wait,
    live: &LiveRun<G, P>,
    place: &mut Option<Worker>,
    index: usize,
)
    requires below { index < length live.now.rows.now }
    requires ready { IsReadyAt live.now.board.now index place.old }
    requires few { length (kept_for (map (λ list. list.items) live.now.rows.now) index)
        < live.now.board.now.sizes.quota }
    ensures { HasRunAt live.now.settings.now live.now.board.now index
        (kept_for (map (λ list. list.items) live.now.rows.now) index) place.new }
{
    let rows = live.rows[index].as_slice();
    let passed = live.listeners.pass(index);
    let Some(worker) = place.take() else {
        unreachable!();
    };
    let progress = live.listeners.progress;
    *place = Some(worker.run(rt, live.board, rows, live.settings, passed, progress));
}

fn crew_of(alloc: Global, members: Vec<StandardMember>) -> Result<Vec<Option<Worker>>, AllocError>
    ensures { IfOk result (λ crew. crew.items ≡ map ready members.items) }
{
    let mut crew = Vec::with_capacity(alloc, members.len())?;
    for member in members {
        crew.push(Some(Worker {
            member,
            passed: None,
            gave_up: None,
        }))?;
    }
    Ok(crew)
}

// What the first worker that gave up lacked.
fn first_to_give_up(crew: &[Option<Worker>]) -> Option<Want>
    ensures none { result ≡ None → (t : ℕ) (d : Option Worker) → t < length crew.now
        → gave_up_at (slice_index_or crew.now t d) ≡ None }
    ensures some { IfSome result (λ gave_up. (t : ℕ) × (t < length crew.now)
        × ((d : Option Worker) → gave_up_at (slice_index_or crew.now t d) ≡ Some gave_up)
        × ((u : ℕ) (d : Option Worker) → u < t → gave_up_at (slice_index_or crew.now u d) ≡ None)) }
{
    for place in crew {
        let gave_up = gave_up_of(place);
        if gave_up.is_some() {
            return gave_up;
        }
    }
    None
}

fn gave_up_of(place: &Option<Worker>) -> Option<Want>
    ensures { result ≡ gave_up_at place.now }
{
    match place {
        Some(worker) => worker.gave_up,
        None => None,
    }
}

// Why a run ends of which a worker gave up: memory was wanted. Once all members are in one hand, their
// lists are those of one schedule, by which no worker can have found the shared part full.
fn cause_in_one_hand(
    alloc: Global,
    board: &StandardBoard,
    crew: Vec<Option<Worker>>,
    want: Want,
) -> Stop
    requires crew { AreMembersOf board.now (members_in crew.items) }
    requires room { want ≡ Want.Room
        → ¬ (AreListsAtEnd board.now.sizes (lists_in (members_in crew.items))) }
    ensures { result ≡ Stop.NoMemory }
{
    let Ok(members) = members_of(alloc, crew) else {
        return Stop::NoMemory;
    };
    // All members are back.
    let Ok(_all) = board.gather(members) else {
        unreachable!();
    };
    match want {
        Want::Room => unreachable!(),
        Want::Memory => Stop::NoMemory,
    }
}

// Ends the board, once its members have run all their rows.
fn finish(alloc: Global, board: StandardBoard, crew: Vec<Option<Worker>>) -> Result<Totals, Closing>
    requires crew { AreMembersOf board (members_in crew.items) }
    ensures totals { IfOk result (λ totals.
        AreAccounted board.sizes (lists_in (members_in crew.items)) totals) }
    ensures refused { IfErr result (λ closing. closing.stop ≡ Stop.NoMemory) }
{
    let Ok(members) = members_of(alloc, crew) else {
        return Err(Closing::at(Stop::NoMemory, 1));
    };
    match board.finish(alloc, members) {
        Ok(account) => Ok(Totals {
            inserted: account.inserted,
            deleted: account.deleted,
            left: account.left.len() as u64,
        }),
        // All members are back, so it is memory that is wanted.
        Err(_) => Err(Closing::at(Stop::NoMemory, 1)),
    }
}

fn members_of(alloc: Global, crew: Vec<Option<Worker>>) -> Result<Vec<StandardMember>, AllocError>
    ensures { IfOk result (λ members. members.items ≡ members_in crew.items) }
{
    let mut members = Vec::with_capacity(alloc, crew.len())?;
    for place in crew {
        if let Some(worker) = place {
            members.push(worker.member)?;
        }
    }
    Ok(members)
}
