//! A worker of `klsm live`: a member of the board that runs the rows of its thread.
ghost use Rattle.std.specs.Prelude.{◌≡◌, ◌<◌, ◌++◌, [], ◌∷◌, None, length, map, IfOk, IfErr, OnOk};
ghost use Rattle.klsm_run.specs.declared.limits.TheConstants.{PROGRAM_LEVELS};
ghost use Rattle.klsm_schedules.specs.OwnSteps.{inserted};
ghost use Rattle.klsm_board.specs.Boards.{IsOf, IsSame, own_steps};
ghost use Rattle.klsm_tool.specs.Shown.{shown_in};
ghost use Rattle.klsm_tool.specs.MemberCalls.{IsAnswerTo, Wants};
ghost use Rattle.klsm_text.specs.Keeping.{operation_in};
ghost use Rattle.klsm_tool.specs.Picking.{picker_of};
ghost use Rattle.klsm_knapsack.specs.Courses.{IsOnCourse};
ghost use Rattle.klsm_tool.specs.Courses.{CallsInTurn, DeletesInTurn};
ghost use Rattle.klsm_tool.specs.declared.picking.ThreadPicker.{ThreadPicker};
ghost use Rattle.klsm_tool.specs.Working.{HasRunRows, IsReady, Works};

use crate::member_calls::{Want, delete, insert};
use crate::picking::ThreadPicker;
use klsm_board::{StandardBoard, StandardMember};
use klsm_knapsack::Passed;
use klsm_progress::{Counted, Pace, Progress};
use klsm_text::{Answer, Operation, ThreadRow};
use klsm_words::ScriptSettings;
use std::sync::Wait;

/// A member, that it has passed the gate, once it has, and what it lacked when it gave up, if it did.
#[derive(Drop)]
pub(crate) struct Worker {
    pub member: StandardMember,
    pub passed: Option<Passed>,
    pub gave_up: Option<Want>,
}

impl Worker {
    /// Runs the rows of its thread in their order, with the picks that the settings choose for its
    /// thread. It has passed the gate before.
    pub(crate) fn run(
        self,
        rt: &impl Wait,
        board: &StandardBoard,
        rows: &[ThreadRow],
        settings: &ScriptSettings,
        passed: Passed,
        progress: &impl Progress,
    ) -> Worker
        requires ready { IsReady board.now self.member.number self.member }
        requires few { length rows.now < board.now.sizes.quota }
        requires passed { passed.worker ≡ self.member.number }
        ensures { HasRunRows settings.now board.now self.member.number (map operation_in rows.now)
            result }
    {
        let Worker { mut member, .. } = self;
        let mut picker = ThreadPicker::of(settings, member.number() as u64);
        let gave_up = answer_all(
            rt,
            board,
            &mut member,
            settings,
            &mut picker,
            rows,
            progress,
        );
        Worker {
            member,
            passed: Some(passed),
            gave_up,
        }
    }
}

// Runs no further row where one is refused, and answers what was lacked. The settings are only looked at by
// the premise that they chose the picker.
fn answer_all(
    rt: &impl Wait,
    board: &StandardBoard,
    member: &mut StandardMember,
    settings: &ScriptSettings,
    picker: &mut ThreadPicker,
    rows: &[ThreadRow],
    progress: &impl Progress,
) -> Option<Want>
    requires of { IsOf member.old board.now }
    requires no_steps { own_steps member.old ≡ [] }
    requires few { length rows.now < board.now.sizes.quota }
    requires picks { picker.old ≡ picker_of settings.now member.old.number }
    ensures same { IsSame member.old member.new }
    ensures works { Works board.now.sizes.k member.old.number (map operation_in rows.now)
        (own_steps member.new) result }
    ensures course { result ≡ None → IsOnCourse (CallsInTurn board.now.sizes member.old.number)
        (picker_of settings.now member.old.number) picker.new (own_steps member.new) }
{
    let mut pace = Pace::new(Counted::RowsRun);
    for row in rows {
        if let Err(want) = answer(rt, board, member, picker, row.operation()) {
            return Some(want);
        }
        pace.count(progress);
    }
    None
}

fn answer(
    rt: &impl Wait,
    board: &StandardBoard,
    member: &mut StandardMember,
    picker: &mut ThreadPicker,
    operation: Operation,
) -> Result<Answer, Want>
    requires of { IsOf member.old board.now }
    requires room { length (inserted (own_steps member.old)) < member.old.sizes.quota }
    requires picks { picker.old.thread ≡ member.old.number }
    ensures same { IsSame member.old member.new }
    ensures picker { picker.new.thread ≡ picker.old.thread }
    ensures answer { IfOk result (IsAnswerTo operation) }
    ensures shown { IfOk result (λ answer.
        shown_in (own_steps member.new) ≡ shown_in (own_steps member.old) ++ answer ∷ []) }
    ensures refused { IfErr result (λ wanted.
        (shown_in (own_steps member.new) ≡ shown_in (own_steps member.old))
        × Wants PROGRAM_LEVELS member.old.sizes.k member.old.number (own_steps member.new) wanted) }
    ensures deletes { operation ≡ Operation.Delete
        → IfOk result (DeletesInTurn member.old.sizes member.old.number picker.old picker.new
        (own_steps member.old) (own_steps member.new)) }
    ensures course { (first : ThreadPicker)
        → IsOnCourse (CallsInTurn board.now.sizes member.old.number) first picker.old
        (own_steps member.old)
        → OnOk result (IsOnCourse (CallsInTurn board.now.sizes member.old.number) first picker.new
        (own_steps member.new)) }
{
    match operation {
        Operation::Insert { key, load } => match insert(rt, board, member, key, load) {
            Ok(item) => Ok(Answer::Inserted(item)),
            Err(want) => Err(want),
        },
        Operation::Delete => Ok(delete(rt, board, member, picker)),
    }
}
