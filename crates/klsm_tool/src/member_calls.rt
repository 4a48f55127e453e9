//! What the members of a board do for a row.
ghost use Rattle.std.specs.Prelude.{◌≡◌, ◌<◌, ◌++◌, ◌∷◌, [], length, IfOk, IfErr, OnErr};
ghost use Rattle.klsm_run.specs.declared.item.Item.{Item};
ghost use Rattle.klsm_run.specs.declared.limits.TheConstants.{PROGRAM_LEVELS};
ghost use Rattle.klsm_schedules.specs.Account.{account};
ghost use Rattle.klsm_schedules.specs.OwnSteps.{inserted};
ghost use Rattle.klsm_parts.specs.Choices.{may_choose};
ghost use Rattle.klsm_board.specs.Balancing.{HasBalanced, after_turn, victim_now};
ghost use Rattle.klsm_board.specs.Boards.{IsOf, IsSame, own_steps};
ghost use Rattle.klsm_board.specs.Deleting.{AnswersDeletion, AnswersWaiting};
ghost use Rattle.klsm_board.specs.Inserting.{GivesUp, Inserts, InsertsWaiting, IsBelowLimit};
ghost use Rattle.klsm_text.specs.declared.answer.Answer.TheVariants.{Inserted};
ghost use Rattle.klsm_board.specs.Together.{AreOf, all_lists, left_of, steps_for};
ghost use Rattle.klsm_text.specs.AnswerText.{skip_of};
ghost use Rattle.klsm_text.specs.Script.{row_limit};
ghost use Rattle.klsm_text.specs.declared.stop.Stop.TheVariants as stop;
ghost use Rattle.klsm_tool.specs.Crews.{Goes};
ghost use Rattle.klsm_tool.specs.Shown.{IsFew, shown_in};
ghost use Rattle.klsm_tool.specs.MemberCalls.{IsDeletion, Wants};
ghost use Rattle.klsm_tool.specs.Courses.{BalancesWith, DeletesInOneHand, DeletesInTurn, item_of};

use crate::picking::ThreadPicker;
use klsm_board::{
    AllStandardMembers, Balancing, Board, InsertError, MOST_BALANCED, Member, StandardBoard,
};
use klsm_parts::Choice;
use klsm_run::Item;
use klsm_text::{Answer, Stop};
use std::sync::Wait;

/// What an insertion by a member alone was refused for.
#[derive(Clone, Copy)]
pub(crate) enum Want {
    /// The shared part had no room. Whether it can have had none, the lists of all members say.
    Room,
    /// A growth was refused.
    Memory,
}

/// An insertion, whose item is answered.
pub(crate) fn insert<const CAP: usize, const LEVELS: usize>(
    rt: &impl Wait,
    board: &Board<CAP, LEVELS>,
    member: &mut Member<CAP, LEVELS>,
    key: u64,
    load: u64,
) -> Result<Item, Want>
    requires of { IsOf member.old board.now }
    requires room { length (inserted (own_steps member.old)) < member.old.sizes.quota }
    ensures same { IsSame member.old member.new }
    ensures item { IfOk result (λ x. (x.key ≡ key) × (x.load ≡ load)) }
    ensures shown { IfOk result (λ x.
        shown_in (own_steps member.new) ≡ shown_in (own_steps member.old) ++ Inserted x ∷ []) }
    ensures inserts { IfOk result (InsertsWaiting LEVELS member.old.sizes.k member.old.number
        (own_steps member.old) (own_steps member.new)) }
    ensures refused { IfErr result (λ wanted.
        (shown_in (own_steps member.new) ≡ shown_in (own_steps member.old))
        × Wants LEVELS member.old.sizes.k member.old.number (own_steps member.new) wanted) }
{
    match member.insert(rt, board, key, load) {
        Ok(stamp) => Ok(Item { key, stamp, load }),
        Err(InsertError::Spent) => unreachable!(),
        Err(InsertError::Full) => Err(Want::Room),
        Err(InsertError::NoMemory) => Err(Want::Memory),
    }
}

/// A deletion, by the picker of the member's thread. Where it is time the member balances first.
pub(crate) fn delete<const CAP: usize, const LEVELS: usize>(
    rt: &impl Wait,
    board: &Board<CAP, LEVELS>,
    member: &mut Member<CAP, LEVELS>,
    picker: &mut ThreadPicker,
) -> Answer
    requires of { IsOf member.old board.now }
    requires picks { picker.old.thread ≡ member.old.number }
    ensures same { IsSame member.old member.new }
    ensures picker { picker.new.thread ≡ picker.old.thread }
    ensures answer { IsDeletion result }
    ensures shown { shown_in (own_steps member.new)
        ≡ shown_in (own_steps member.old) ++ result ∷ [] }
    ensures deletes { DeletesInTurn member.old.sizes member.old.number picker.old picker.new
        (own_steps member.old) (own_steps member.new) result }
{
    balance(board, member, &mut picker.balancing);
    let answer = delete_item(rt, board, member, &mut picker.choice);
    picker.balancing.count_deletion();
    answer
}

// Balances with the member whose turn it is, where it is time. One whose lock is held is passed over.
fn balance<const CAP: usize, const LEVELS: usize>(
    board: &Board<CAP, LEVELS>,
    member: &mut Member<CAP, LEVELS>,
    balancing: &mut Balancing,
)
    requires of { IsOf member.old board.now }
    ensures same { IsSame member.old member.new }
    ensures balances { HasBalanced member.old.sizes member.old.number
        (victim_now balancing.old member.old.number member.old.sizes.threads)
        (own_steps member.old) (own_steps member.new) }
    ensures turn { balancing.new ≡ after_turn balancing.old member.old.sizes.threads }
{
    let Some(victim) = balancing.next_victim(member.number(), board.threads()) else {
        return;
    };
    let _moved = member.try_balance(board, victim, MOST_BALANCED);
}

// A deletion without more.
fn delete_item<const CAP: usize, const LEVELS: usize>(
    rt: &impl Wait,
    board: &Board<CAP, LEVELS>,
    member: &mut Member<CAP, LEVELS>,
    choice: &mut Choice,
) -> Answer
    requires { IsOf member.old board.now }
    ensures same { IsSame member.old member.new }
    ensures answer { IsDeletion result }
    ensures shown { shown_in (own_steps member.new)
        ≡ shown_in (own_steps member.old) ++ result ∷ [] }
    ensures ok { AnswersWaiting may_choose choice.old choice.new member.old.sizes
        member.old.number (own_steps member.old) (own_steps member.new) (item_of result) }
{
    match member.delete_min(rt, board, choice) {
        Some(item) => Answer::Deleted(item),
        None => Answer::Nothing,
    }
}

/// An insertion by the member of this number, of all that have inserted fewer items than a script can have rows.
pub(crate) fn insert_by(
    board: &StandardBoard,
    all: &mut AllStandardMembers,
    thread: u32,
    key: u64,
    load: u64,
) -> Result<Item, Stop>
    requires of { AreOf all.old board.now }
    requires thread { thread < board.now.sizes.threads }
    requires quota { row_limit < board.now.sizes.quota }
    requires few { (account (all_lists all.old)).inserted < row_limit }
    ensures of { AreOf all.new board.now }
    ensures item { IfOk result (λ x. (x.key ≡ key) × (x.load ≡ load)) }
    ensures goes { IfOk result (λ x.
        Goes thread (all_lists all.old) (all_lists all.new) (Inserted x ∷ [])) }
    ensures inserts { IfOk result (Inserts PROGRAM_LEVELS board.now.sizes.k thread
        (steps_for all.old thread) (steps_for all.new thread)) }
    ensures refused { IfErr result (λ why. (why ≡ stop.NoMemory)
        × Goes thread (all_lists all.old) (all_lists all.new) []) }
    ensures lacks { OnErr result (GivesUp board.now.sizes.k thread (steps_for all.old thread)
        (steps_for all.new thread) (IsBelowLimit PROGRAM_LEVELS)) }
{
    match all.insert(board, thread, key, load) {
        Ok(stamp) => Ok(Item { key, stamp, load }),
        Err(InsertError::Spent) => unreachable!(),
        // The shared part has room for more items than a script has rows.
        Err(InsertError::Full) => unreachable!(),
        Err(InsertError::NoMemory) => Err(Stop::NoMemory),
    }
}

/// A deletion by the member of this number, and by its thread's picker. Where it is time the member balances first.
pub(crate) fn delete_by(
    board: &StandardBoard,
    all: &mut AllStandardMembers,
    thread: u32,
    picker: &mut ThreadPicker,
) -> Answer
    requires of { AreOf all.old board.now }
    requires thread { thread < board.now.sizes.threads }
    requires picks { picker.old.thread ≡ thread }
    ensures picker { picker.new.thread ≡ picker.old.thread }
    ensures of { AreOf all.new board.now }
    ensures answer { IsDeletion result }
    ensures goes { Goes thread (all_lists all.old) (all_lists all.new) (result ∷ []) }
    ensures few { IsFew board.now.sizes.threads board.now.sizes.k
        (skip_of (left_of all.old) result) }
    ensures deletes { DeletesInOneHand board.now.sizes thread picker.old picker.new
        (steps_for all.old thread) (steps_for all.new thread) result }
{
    balance_by(board, all, thread, &mut picker.balancing);
    let answer = delete_item_by(board, all, thread, &mut picker.choice);
    picker.balancing.count_deletion();
    answer
}

// Balances as the member of this number with the one whose turn it is, where it is time.
fn balance_by(
    board: &StandardBoard,
    all: &mut AllStandardMembers,
    thread: u32,
    balancing: &mut Balancing,
)
    requires of { AreOf all.old board.now }
    requires thread { thread < board.now.sizes.threads }
    ensures of { AreOf all.new board.now }
    ensures goes { Goes thread (all_lists all.old) (all_lists all.new) [] }
    ensures balances { BalancesWith board.now.sizes thread
        (victim_now balancing.old thread board.now.sizes.threads)
        (steps_for all.old thread) (steps_for all.new thread) }
    ensures turn { balancing.new ≡ after_turn balancing.old board.now.sizes.threads }
{
    let Some(victim) = balancing.next_victim(thread, board.threads()) else {
        return;
    };
    let _moved = all.balance(board, thread, victim, MOST_BALANCED);
}

// A deletion by the member of this number without more.
fn delete_item_by(
    board: &StandardBoard,
    all: &mut AllStandardMembers,
    thread: u32,
    choice: &mut Choice,
) -> Answer
    requires of { AreOf all.old board.now }
    requires thread { thread < board.now.sizes.threads }
    ensures of { AreOf all.new board.now }
    ensures answer { IsDeletion result }
    ensures goes { Goes thread (all_lists all.old) (all_lists all.new) (result ∷ []) }
    ensures few { IsFew board.now.sizes.threads board.now.sizes.k
        (skip_of (left_of all.old) result) }
    ensures ok { AnswersDeletion may_choose choice.old choice.new board.now.sizes thread
        (steps_for all.old thread) (steps_for all.new thread) (item_of result) }
{
    match all.delete_min(board, thread, choice) {
        Some(item) => Answer::Deleted(item),
        None => Answer::Nothing,
    }
}
