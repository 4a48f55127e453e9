//! What a replay keeps beside the board whose members answer its rows.
ghost use Rattle.klsm_tool.specs.Picking.{ArePlaced};

use crate::member_calls::{delete_by, insert_by};
use crate::picking::{ThreadPicker, pickers_of};
use crate::skip_counter::SkipCounter;
use klsm_board::{AllStandardMembers, StandardBoard};
use klsm_run::Item;
use klsm_text::{Answer, Line, Operation, Printed, Request, Stop};
use klsm_words::ScriptSettings;
use std::alloc::{AllocError, Global};

/// What each thread's deletions go by, at the thread's place, the live items, and the greatest skip so far.
#[derive(Drop)]
pub(crate) struct ReplayState {
    pickers: Vec<ThreadPicker>,
    live: SkipCounter,
    pub most: usize,
    ghost placed: { ArePlaced pickers.items },
}

impl ReplayState {
    ghost use Rattle.std.specs.Prelude.{◌≡◌, ◌<◌, ◌⊎◌, [], ◌∷◌, ℕ, max, slice_index_or, IfOk, IfErr, OnErr};
    ghost use Rattle.klsm_run.specs.Content.{sorted};
    ghost use Rattle.klsm_run.specs.declared.limits.TheConstants.{PROGRAM_LEVELS};
    ghost use Rattle.klsm_schedules.specs.Account.{account};
    ghost use Rattle.klsm_text.specs.AnswerText.{live_after, skip_of};
    ghost use Rattle.klsm_tool.specs.Crews.{Goes};
    ghost use Rattle.klsm_tool.specs.Answering.{Answers, picker_count, pickers_kept, live_kept};
    ghost use Rattle.klsm_tool.specs.Picking.{ArePickers};
    ghost use Rattle.klsm_tool.specs.MemberCalls.{IsDeletion};
    ghost use Rattle.klsm_tool.specs.Courses.{AreOnCourse, DeletesInOneHand};
    ghost use Rattle.klsm_tool.specs.declared.picking.ThreadPicker.{ThreadPicker};
    ghost use Rattle.klsm_board.specs.Inserting.{GivesUp, Inserts, IsBelowLimit};
    ghost use Rattle.klsm_board.specs.Together.{AreOf, all_lists, steps_for};
    ghost use Rattle.klsm_text.specs.Script.{row_limit};
    ghost use Rattle.klsm_text.specs.declared.stop.Stop.TheVariants as stop;
    ghost use Rattle.klsm_text.specs.declared.answer.Answer.TheVariants.{Inserted};

    pub(crate) fn new(alloc: Global, settings: &ScriptSettings) -> Result<Self, AllocError>
        ensures pickers { IfOk result (λ state. picker_count state ≡ settings.now.threads) }
        ensures choices { IfOk result (λ state.
            ArePickers settings.now (pickers_kept state)) }
        ensures live { IfOk result (λ state. live_kept state ≡ []) }
        ensures most { IfOk result (λ state. state.most ≡ 0) }
    {
        Ok(ReplayState {
            pickers: pickers_of(alloc, settings)?,
            live: SkipCounter::new(alloc),
            most: 0,
        })
    }

    /// Lets the member of a row's thread do what the row asks for.
    pub(crate) fn answer(
        &mut self,
        board: &StandardBoard,
        all: &mut AllStandardMembers,
        request: Request,
    ) -> Result<Printed, Stop>
        requires of { AreOf all.old board.now }
        requires pickers { picker_count self.old ≡ board.now.sizes.threads }
        requires thread { request.thread < board.now.sizes.threads }
        requires quota { row_limit < board.now.sizes.quota }
        requires few { (account (all_lists all.old)).inserted < row_limit }
        ensures of { AreOf all.new board.now }
        ensures pickers { picker_count self.new ≡ board.now.sizes.threads }
        ensures ok { IfOk result (Answers board.now.sizes.threads board.now.sizes.k request
            (all_lists all.old) (all_lists all.new) (live_kept self.old) (live_kept self.new)
            self.old.most self.new.most) }
        ensures refused { IfErr result (λ why. (why ≡ stop.NoMemory)
            × Goes request.thread (all_lists all.old) (all_lists all.new) []
            × (self.new.most ≡ self.old.most)) }
        ensures deletes { request.operation ≡ Operation.Delete
            → IfOk result (λ printed. (d : ThreadPicker)
            → DeletesInOneHand board.now.sizes request.thread
            (slice_index_or (pickers_kept self.old) request.thread d)
            (slice_index_or (pickers_kept self.new) request.thread d)
            (steps_for all.old request.thread) (steps_for all.new request.thread)
            printed.line.answer) }
        ensures course { (first : ℕ → ThreadPicker)
            → AreOnCourse board.now.sizes first (all_lists all.old) (pickers_kept self.old)
            → AreOnCourse board.now.sizes first (all_lists all.new) (pickers_kept self.new) }
    {
        let Request { thread, operation } = request;
        match operation {
            Operation::Insert { key, load } => {
                let item = self.insert(board, all, thread, key, load)?;
                let answer = Answer::Inserted(item);
                Ok(Printed {
                    line: Line { thread, answer },
                    skip: 0,
                })
            }
            Operation::Delete => {
                let picker = &mut self.pickers[thread as usize];
                let answer = delete_by(board, all, thread, picker);
                let skip = self.count_skip(answer);
                Ok(Printed {
                    line: Line { thread, answer },
                    skip,
                })
            }
        }
    }

    fn insert(
        &mut self,
        board: &StandardBoard,
        all: &mut AllStandardMembers,
        thread: u32,
        key: u64,
        load: u64,
    ) -> Result<Item, Stop>
        requires of { AreOf all.old board.now }
        requires thread { thread < board.now.sizes.threads }
        requires quota { row_limit < board.now.sizes.quota }
        requires few { (account (all_lists all.old)).inserted < row_limit }
        ensures of { AreOf all.new board.now }
        ensures pickers { pickers_kept self.new ≡ pickers_kept self.old }
        ensures most { self.new.most ≡ self.old.most }
        ensures item { IfOk result (λ x. (x.key ≡ key) × (x.load ≡ load)) }
        ensures goes { IfOk result (λ x.
            Goes thread (all_lists all.old) (all_lists all.new) (Inserted x ∷ [])) }
        ensures inserts { IfOk result (Inserts PROGRAM_LEVELS board.now.sizes.k thread
            (steps_for all.old thread) (steps_for all.new thread)) }
        ensures live { IfOk result (λ x. sorted (live_kept self.new)
            ≡ sorted (x ∷ live_kept self.old)) }
        ensures refused { IfErr result (λ why. (why ≡ stop.NoMemory)
            × Goes thread (all_lists all.old) (all_lists all.new) []) }
        ensures lacks { OnErr result ((steps_for all.new thread ≡ steps_for all.old thread)
            ⊎ GivesUp board.now.sizes.k thread (steps_for all.old thread)
            (steps_for all.new thread) (IsBelowLimit PROGRAM_LEVELS)) }
    {
        if self.live.reserve().is_err() {
            return Err(Stop::NoMemory);
        }
        let item = insert_by(board, all, thread, key, load)?;
        self.live.insert(item);
        Ok(item)
    }

    // How many items a deletion skips. Its item lives no longer.
    fn count_skip(&mut self, answer: Answer) -> usize
        requires { IsDeletion answer }
        ensures pickers { pickers_kept self.new ≡ pickers_kept self.old }
        ensures skip { result ≡ skip_of (live_kept self.old) answer }
        ensures live { sorted (live_kept self.new)
            ≡ sorted (live_after (live_kept self.old) answer) }
        ensures most { self.new.most ≡ max self.old.most result }
    {
        let Answer::Deleted(item) = answer else {
            return 0;
        };
        let skip = self.live.remove(item);
        self.most = self.most.max(skip);
        skip
    }
}
