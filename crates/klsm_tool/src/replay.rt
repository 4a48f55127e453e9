//! `klsm replay`: a script, answered row by row by the members of a board.
ghost use Rattle.std.specs.Prelude.{◌≡◌, ℕ, ◌+◌, ◌*◌, ◌<◌, ◌≤◌, ◌^◌, List, [], ◌∷◌};
ghost use Rattle.std.specs.Prelude.{length, Option, IfErr, IfOk, MatchResult, true};
ghost use Rattle.klsm_run.specs.declared.item.Item.{Item};
ghost use Rattle.klsm_run.specs.declared.limits.TheConstants.{PROGRAM_K, PROGRAM_THREADS};
ghost use Rattle.klsm_schedules.specs.declared.step.Entry.{Entry};
ghost use Rattle.klsm_board.specs.Together.{AreOf, all_lists};
ghost use Rattle.klsm_schedules.specs.Account.{account};
ghost use Rattle.klsm_text.specs.Output.{pending, put_count};
ghost use Rattle.klsm_text.specs.AnswerText.{live_by, skip_of};
ghost use Rattle.klsm_text.specs.declared.answer.Line.{Line};
ghost use Rattle.klsm_text.specs.declared.stop.Stop.TheVariants as stop;
ghost use Rattle.klsm_rows.specs.Rows.{Row};
ghost use Rattle.klsm_text.specs.Script.{row_limit};
ghost use Rattle.klsm_tool.specs.Crews.{AreFew, HaveNoSteps, board_sizes};
ghost use Rattle.klsm_tool.specs.Answering.{live_kept, picker_count, pickers_kept};
ghost use Rattle.klsm_tool.specs.Picking.{ArePickers, picker_of};
ghost use Rattle.klsm_tool.specs.Courses.{AreOnCourse, GoInOneHand};
ghost use Rattle.klsm_tool.specs.declared.picking.ThreadPicker.{ThreadPicker};
ghost use Rattle.klsm_text.specs.Reading.{HasReadScript, reader_failed};
ghost use Rattle.klsm_text.specs.ThreadRows.{AreAccepted, HasReadToRefusal, StandsAtRefusal};
ghost use Rattle.klsm_text.specs.Waiting.{HasSentBefore};
ghost use Rattle.klsm_tool.specs.Progress.{HasStopped, IsCutOff, IsTold, StandsAfter};
ghost use Rattle.klsm_tool.specs.Progress.{StopsBefore};
ghost use Rattle.klsm_tool.specs.Replay.{Replays, ReplaysAlone};

use crate::advising::advise_on_row;
use crate::making::board_in_one_hand;
use crate::replay_state::ReplayState;
use klsm_board::{AllStandardMembers, StandardBoard};
use klsm_progress::{Counted, Pace, Progress};
use klsm_text::{
    Closing, End, NO_MEMORY, Output, Printed, ROW_LIMIT, Refusal, Report, Script, Stop, request_of,
    write_last,
};
use klsm_words::ScriptSettings;
use std::alloc::{AllocError, Global};
use std::io::{Read, Write};

/// Answers the rows of a script over a board of its own, which is finished where all are answered, and tells
/// of a long run while it lasts. It waits for no lock.
pub fn replay_with<P: AllocGlobal, R: Read + Drop, W: Write>(
    rt: &P,
    reader: R,
    writer: &mut W,
    settings: &ScriptSettings,
    progress: &impl Progress,
) -> Report
    requires some_thread { 1 ≤ settings.now.threads }
    requires threads { settings.now.threads ≤ PROGRAM_THREADS }
    requires k { settings.now.k ≤ PROGRAM_K }
    requires refill { settings.now.refill ≤ settings.now.k }
    ensures { ReplaysAlone settings.now (R.remaining reader)
        (W.contents writer.old) (W.contents writer.new) result }
{
    let Ok((board, mut all)) = board_in_one_hand(rt.alloc(), settings) else {
        return write_last(writer, NO_MEMORY, 0, End::NoMemory);
    };
    let mut script = Script::new(rt.alloc(), reader);
    let report = replay_script(
        rt,
        &mut script,
        writer,
        settings,
        &board,
        &mut all,
        progress,
    );
    if report.end != End::Done {
        return report;
    }
    let members = all.spread(&board);
    match board.finish(rt.alloc(), members) {
        Ok(_) => report,
        // All members are there, so it is memory that is wanted.
        Err(_) => write_last(writer, NO_MEMORY, report.written, End::NoMemory),
    }
}

/// Answers the rows of a script of the caller's in their order, each by the member of its thread, and each
/// before the next one is looked at. No row of it was read yet, and no member has made a step. The lines go
/// out many at a time, and all of them before a further row is waited for.
///
/// A read fault is answered only where the reader of the script has failed. Behind a row that is refused
/// none is read.
pub fn replay_script<P: AllocGlobal, R: Read + Drop, W: Write>(
    rt: &P,
    script: &mut Script<R>,
    writer: &mut W,
    settings: &ScriptSettings,
    board: &StandardBoard,
    all: &mut AllStandardMembers,
    progress: &impl Progress,
) -> Report
    requires sizes { board.now.sizes ≡ board_sizes settings.now }
    requires of { AreOf all.old board.now }
    requires fresh { HaveNoSteps all.old }
    ensures of { AreOf all.new board.now }
    ensures written { result.written < 2 ^ 63 }
    ensures replays { (input : Option (List ℕ)) → HasReadScript R.remaining input [] script.old
        → Replays settings.now.threads settings.now.k (all_lists all.new) input
        (W.contents writer.old) (W.contents writer.new) result }
    ensures course { GoInOneHand settings.now (all_lists all.new) }
    ensures fault { (input : Option (List ℕ)) → HasReadScript R.remaining input [] script.old
        → result.end ≡ End.ReadFault → reader_failed script.new ≡ true }
    ensures refused { (input : Option (List ℕ)) → HasReadScript R.remaining input [] script.old
        → result.end ≡ End.Refused
        → HasReadToRefusal R.remaining settings.now.threads input script.new }
{
    let Ok(mut replay) = Replay::new(rt.alloc(), settings) else {
        return write_last(writer, NO_MEMORY, 0, End::NoMemory);
    };
    progress.begins(None);
    let closing = replay.answer_rows(script, writer, board, all, settings, progress);
    progress.ended();
    let report = replay.output.close(writer, closing);
    advise_on_row(progress, &closing, &script.row);
    report
}

// A replay on its way.
#[derive(Drop)]
struct Replay {
    state: ReplayState,
    output: Output,
}

impl Replay {
    fn new(alloc: Global, settings: &ScriptSettings) -> Result<Self, AllocError>
        ensures pickers { IfOk result (λ replay.
            picker_count replay.state ≡ settings.now.threads) }
        ensures choices { IfOk result (λ replay.
            ArePickers settings.now (pickers_kept replay.state)) }
        ensures live { IfOk result (λ replay. live_kept replay.state ≡ []) }
        ensures most { IfOk result (λ replay. replay.state.most ≡ 0) }
        ensures written { IfOk result (λ replay. replay.output.written ≡ 0) }
        ensures empty { IfOk result (λ replay. pending replay.output ≡ []) }
    {
        let state = ReplayState::new(alloc, settings)?;
        let output = Output::new(alloc)?;
        Ok(Replay { state, output })
    }

    // Answers rows until there is a reason to stop, and says what the last line is.
    fn answer_rows<R: Read + Drop, W: Write>(
        &mut self,
        script: &mut Script<R>,
        writer: &mut W,
        board: &StandardBoard,
        all: &mut AllStandardMembers,
        settings: &ScriptSettings,
        progress: &impl Progress,
    ) -> Closing
        requires sizes { board.now.sizes ≡ board_sizes settings.now }
        requires of { AreOf all.old board.now }
        requires pickers { picker_count self.old.state ≡ board.now.sizes.threads }
        requires few { AreFew 0 (all_lists all.old) }
        requires course { AreOnCourse board.now.sizes (picker_of settings.now)
            (all_lists all.old) (pickers_kept self.old.state) }
        requires put { put_count self.old.output ≡ 0 }
        ensures of { AreOf all.new board.now }
        ensures put { put_count self.new.output ≤ 160 * row_limit }
        ensures row { result.row ≤ row_limit + 1 }
        ensures bound { result.bound ≡ settings.now.threads * settings.now.k }
        ensures stops { (input before : Option (List ℕ)) →
            StandsAfter R.remaining settings.now.threads settings.now.k (all_lists all.old) input [] []
            script.old (live_kept self.old.state) self.old.state.most
            → IsTold before (W.contents writer.old) [] self.old.output
            → HasStopped (reader_failed script.new) settings.now.threads settings.now.k
            (all_lists all.new) input before (W.contents writer.new) result.row result.most
            self.new.output result.stop }
        ensures refused { (input before : Option (List ℕ)) →
            StandsAfter R.remaining settings.now.threads settings.now.k (all_lists all.old) input [] []
            script.old (live_kept self.old.state) self.old.state.most
            → IsTold before (W.contents writer.old) [] self.old.output
            → StandsAtRefusal R.remaining settings.now.threads input script.new result.stop }
        ensures course { GoInOneHand settings.now (all_lists all.new) }
    {
        let bound = settings.threads * settings.k;
        let mut pace = Pace::new(Counted::RowsAnswered);
        for answered in 0..ROW_LIMIT {
            if let Err(stop) = self.answer_row(script, writer, board, all) {
                return Closing {
                    stop,
                    row: answered + 1,
                    most: self.state.most,
                    bound,
                };
            }
            pace.count(progress);
        }
        Closing {
            stop: stop_behind(script, &mut self.output, writer),
            row: ROW_LIMIT + 1,
            most: self.state.most,
            bound,
        }
    }

    // Answers one row, or says why not.
    fn answer_row<R: Read + Drop, W: Write>(
        &mut self,
        script: &mut Script<R>,
        writer: &mut W,
        board: &StandardBoard,
        all: &mut AllStandardMembers,
    ) -> Result<(), Stop>
        requires of { AreOf all.old board.now }
        requires quota { row_limit < board.now.sizes.quota }
        requires few { (account (all_lists all.old)).inserted < row_limit }
        requires pickers { picker_count self.old.state ≡ board.now.sizes.threads }
        requires put { put_count self.old.output < 2 ^ 63 }
        ensures of { AreOf all.new board.now }
        ensures pickers { picker_count self.new.state ≡ board.now.sizes.threads }
        ensures few { (n : ℕ) → AreFew n (all_lists all.old)
            → AreFew (n + 1) (all_lists all.new) }
        ensures put { put_count self.new.output ≤ put_count self.old.output + 160 }
        ensures step { (input before : Option (List ℕ)) (rows : List Row) (lines : List Line) →
            StandsAfter R.remaining board.now.sizes.threads board.now.sizes.k (all_lists all.old) input rows lines
            script.old (live_kept self.old.state) self.old.state.most
            → length rows < row_limit
            → IsTold before (W.contents writer.old) lines self.old.output
            → MatchResult result
            (λ _. (row : Row) × (line : Line)
            × StandsAfter R.remaining board.now.sizes.threads board.now.sizes.k (all_lists all.new) input (row ∷ rows)
            (line ∷ lines) script.new (live_kept self.new.state) self.new.state.most
            × IsTold before (W.contents writer.new) (line ∷ lines) self.new.output)
            (λ why. HasStopped (reader_failed script.new) board.now.sizes.threads
            board.now.sizes.k (all_lists all.new) input before (W.contents writer.new)
            (length rows + 1) self.new.state.most self.new.output why) }
        ensures refused { (input : Option (List ℕ)) (rows : List Row)
            → HasReadScript R.remaining input rows script.old
            → AreAccepted board.now.sizes.threads rows → length rows < row_limit
            → IfErr result (StandsAtRefusal R.remaining board.now.sizes.threads input script.new) }
        ensures course { (first : ℕ → ThreadPicker)
            → AreOnCourse board.now.sizes first (all_lists all.old) (pickers_kept self.old.state)
            → AreOnCourse board.now.sizes first (all_lists all.new)
            (pickers_kept self.new.state) }
    {
        send_before_wait(script, &mut self.output, writer)?;
        let line = next_line(script, &self.output, &mut self.state, board, all)?;
        self.output.put(writer, line.text().as_bytes())
    }
}

// Sends what is pending where the next row may have to be waited for. Then nothing is pending there.
fn send_before_wait<R: Read + Drop, W: Write>(
    script: &Script<R>,
    output: &mut Output,
    writer: &mut W,
) -> Result<(), Stop>
    requires put { put_count output.old < 2 ^ 63 }
    ensures sent { HasSentBefore script.now output.new }
    ensures put { put_count output.new ≤ put_count output.old }
    ensures told { (before : Option (List ℕ)) (lines : List Line) →
        IsTold before (W.contents writer.old) lines output.old
        → MatchResult result
        (λ _. IsTold before (W.contents writer.new) lines output.new)
        (λ why. (why ≡ stop.WriteFault)
        × IsCutOff before (W.contents writer.new) lines output.new.written) }
    ensures fault { IfErr result (λ why. why ≡ stop.WriteFault) }
{
    if script.may_wait() {
        output.flush(writer)
    } else {
        Ok(())
    }
}

// The answer to the next row, or why there is none.
fn next_line<R: Read + Drop>(
    script: &mut Script<R>,
    output: &Output,
    state: &mut ReplayState,
    board: &StandardBoard,
    all: &mut AllStandardMembers,
) -> Result<Printed, Stop>
    requires sent { HasSentBefore script.old output.now }
    requires of { AreOf all.old board.now }
    requires pickers { picker_count state.old ≡ board.now.sizes.threads }
    requires quota { row_limit < board.now.sizes.quota }
    requires few { (account (all_lists all.old)).inserted < row_limit }
    ensures of { AreOf all.new board.now }
    ensures pickers { picker_count state.new ≡ board.now.sizes.threads }
    ensures few { (n : ℕ) → AreFew n (all_lists all.old)
        → AreFew (n + 1) (all_lists all.new) }
    ensures step { (input : Option (List ℕ)) (rows : List Row) (lines : List Line) →
        StandsAfter R.remaining board.now.sizes.threads board.now.sizes.k (all_lists all.old) input rows lines
        script.old (live_kept state.old) state.old.most
        → length rows < row_limit
        → MatchResult result
        (λ printed. (row : Row)
        × StandsAfter R.remaining board.now.sizes.threads board.now.sizes.k (all_lists all.new) input (row ∷ rows)
        (printed.line ∷ lines) script.new (live_kept state.new) state.new.most
        × (printed.skip ≡ skip_of (live_by lines) printed.line.answer))
        (StopsBefore (reader_failed script.new) board.now.sizes.threads board.now.sizes.k
        (all_lists all.new) input rows lines state.new.most) }
    ensures refused { (input : Option (List ℕ)) (rows : List Row)
        → HasReadScript R.remaining input rows script.old
        → AreAccepted board.now.sizes.threads rows → length rows < row_limit
        → IfErr result (StandsAtRefusal R.remaining board.now.sizes.threads input script.new) }
    ensures course { (first : ℕ → ThreadPicker)
        → AreOnCourse board.now.sizes first (all_lists all.old) (pickers_kept state.old)
        → AreOnCourse board.now.sizes first (all_lists all.new) (pickers_kept state.new) }
{
    script.advance(output)?;
    match request_of(&script.row, board.threads()) {
        Ok(request) => state.answer(board, all, request),
        Err(why) => Err(Stop::Refused(why)),
    }
}

// Why no row is answered behind the last one that may be.
fn stop_behind<R: Read + Drop, W: Write>(
    script: &mut Script<R>,
    output: &mut Output,
    writer: &mut W,
) -> Stop
    requires put { put_count output.old < 2 ^ 63 }
    ensures put { put_count output.new ≤ put_count output.old }
    ensures stops { (threads k : ℕ) (lists : List (List Entry)) (input before : Option (List ℕ))
        (rows : List Row) (lines : List Line) (items : List Item) (most : ℕ) →
        StandsAfter R.remaining threads k lists input rows lines script.old items most
        → length rows ≡ row_limit → IsTold before (W.contents writer.old) lines output.old
        → HasStopped (reader_failed script.new) threads k lists input before
        (W.contents writer.new) (length rows + 1) most output.new result }
    ensures refused { (threads : ℕ) (input : Option (List ℕ)) (rows : List Row)
        → HasReadScript R.remaining input rows script.old → AreAccepted threads rows
        → length rows ≡ row_limit → StandsAtRefusal R.remaining threads input script.new result }
{
    if let Err(stop) = send_before_wait(script, output, writer) {
        return stop;
    }
    match script.advance(output) {
        Ok(()) => Stop::Refused(Refusal::Rows),
        Err(stop) => stop,
    }
}
