//! How C closes a queue.
ghost use Rattle.std.specs.Prelude.{◌≡◌, ◌≢◌, ◌↔◌, ◌⊎◌, ◌≤◌, ◌+◌, ◌++◌, ◌∷◌, [], false, length, map, IfOk, IfErr, IsErrAnd, IfSome, MatchOption, None, OnOk, OnErr, vec_capacity};
ghost use Rattle.std.specs.Arc.{arc_value};
ghost use Rattle.std.specs.List.{flat_map};
ghost use Rattle.klsm_run.specs.declared.limits.TheConstants.{MOST_K, MOST_LEVELS, MOST_THREADS};
ghost use mathlib.Core.Option.{some};
ghost use lib.ListN.{get_elem?};
ghost use Rattle.klsm_schedules.specs.OwnSteps.{deleted, inserted};
ghost use Rattle.klsm_board.specs.Boards.{IsOf, own_steps};
ghost use Rattle.klsm_board.specs.Members.{most_deletions, most_insertions};
ghost use Rattle.klsm_owned.specs.Owned.{AreAllOfTheirBoard, member_of, members_of};
ghost use Rattle.klsm_c.specs.Slots.{AreClosed, held_in, owned_in, some_open};
ghost use Rattle.klsm_c.specs.Calls.{deleted_in, inserted_in};
ghost use Rattle.klsm_c.specs.Codes as codes;
ghost use Rattle.klsm_c.specs.Closing.{HasOneOf, IsAccount, all_steps};

use crate::calls::{klsm_deleted, klsm_inserted};
use crate::codes::{NO_MEMORY, NOT_OPEN, OK, SHARED};
use crate::item::{PlainItem, copy_items};
use crate::opening::some_is_open;
use crate::queue::Queue;
use crate::slot::Slot;
use klsm_board::{Member, WideBoard, WideMember};
use klsm_run::Item;
use std::alloc::Global;
use std::sync::Arc;

/// What all members of a board did.
#[repr(C)]
#[derive(Clone, Copy, Debug, Default, PartialEq, Eq)]
pub struct Account {
    /// How many items were inserted.
    pub inserted: u64,
    /// How many were deleted.
    pub deleted: u64,
    /// How many were left.
    pub left: u64,
}

/// Closes a queue, and copies what is left, the least first, as far as there is room.
///
/// It takes memory for the list of members and for the list of what is left, before anything changes.
#[unsafe(no_mangle)]
pub extern "C" fn klsm_close_into(
    alloc: Global,
    queue: &mut Queue,
    account: &mut Account,
    left: &mut [PlainItem],
) -> i32
    ensures not_open { (result ≡ codes.not_open) ↔ (some_open queue.old.slots ≡ false) }
    ensures ok { result ≡ codes.ok → IsAccount (members_of (owned_in queue.old.slots))
        account.new left.old left.new }
    ensures closed { (result ≡ codes.ok) ⊎ (result ≡ codes.shared) → AreClosed queue.new.slots }
    ensures refused { (result ≡ codes.no_memory) ⊎ (result ≡ codes.not_open)
        → held_in queue.new.slots ≡ held_in queue.old.slots }
    ensures untouched { result ≢ codes.ok → (account.new ≡ account.old) × (left.new ≡ left.old) }
    ensures codes { (result ≡ codes.ok) ⊎ (result ≡ codes.no_memory) ⊎ (result ≡ codes.not_open)
        ⊎ (result ≡ codes.shared) }
{
    match close_slots(alloc, &mut queue.slots, left) {
        Ok(totals) => {
            *account = totals;
            OK
        }
        Err(CloseError::NotOpen) => NOT_OPEN,
        Err(CloseError::NoMemory) => NO_MEMORY,
        Err(CloseError::Shared) => SHARED,
    }
}

/// Closes each slot. The board goes with the last of its members, and what is left with it.
#[unsafe(no_mangle)]
pub extern "C" fn klsm_drop(alloc: Global, queue: &mut Queue)
    ensures { AreClosed queue.new.slots }
{
    close_all(alloc, &mut queue.slots);
}

fn close_all(alloc: Global, slots: &mut [Slot])
    ensures { AreClosed slots.new }
{
    for i in 0..slots.len() {
        let _ = slots[i].take(alloc);
    }
}

// Why a queue is not closed.
enum CloseError {
    NotOpen,
    NoMemory,
    // The board has another owner. This never happens, but no contract of `Arc` counts its owners.
    Shared,
}

// Ends the board of the members in these slots, and copies what is left.
fn close_slots(
    alloc: Global,
    slots: &mut [Slot],
    left: &mut [PlainItem],
) -> Result<Account, CloseError>
    requires whole { AreAllOfTheirBoard (members_of (owned_in slots.old)) }
    requires few { length slots.old ≤ MOST_THREADS }
    ensures not_open { IsErrAnd result (λ why. why ≡ CloseError.NotOpen)
        ↔ (some_open slots.old ≡ false) }
    ensures ok { IfOk result (λ account. IsAccount (members_of (owned_in slots.old))
        account left.old left.new) }
    ensures whole { AreAllOfTheirBoard (members_of (owned_in slots.new)) }
    ensures closed { OnOk result (AreClosed slots.new) }
    ensures refused { IfErr result (λ why. (left.new ≡ left.old)
        × ((why ≡ CloseError.Shared → AreClosed slots.new)
        × (why ≢ CloseError.Shared → held_in slots.new ≡ held_in slots.old))) }
{
    if !some_is_open(slots) {
        return Err(CloseError::NotOpen);
    }
    let Ok(mut members) = Vec::with_capacity(alloc, slots.len()) else {
        return Err(CloseError::NoMemory);
    };
    let count = count_left(slots);
    let Ok(items) = Vec::with_capacity(alloc, count as usize) else {
        return Err(CloseError::NoMemory);
    };
    let Some(board) = take_members(alloc, slots, &mut members) else {
        unreachable!();
    };
    match finish(board, members, items, left) {
        Some(account) => Ok(account),
        None => Err(CloseError::Shared),
    }
}

// How many items are left: those inserted by the members in these slots less those deleted by them.
fn count_left(slots: &mut [Slot]) -> u64
    requires few { length slots.old ≤ MOST_THREADS }
    ensures same { held_in slots.new ≡ held_in slots.old }
    ensures count { length (flat_map inserted (all_steps (owned_in slots.old)))
        ≤ length (flat_map deleted (all_steps (owned_in slots.old))) + result }
{
    let mut inserted: u64 = 0;
    let mut deleted: u64 = 0;
    for i in 0..slots.len() {
        let counts = counts_of(&mut slots[i]);
        inserted += counts.0;
        deleted += counts.1;
    }
    inserted.saturating_sub(deleted)
}

// How many items the slot's member inserted and deleted.
fn counts_of(slot: &mut Slot) -> (u64, u64)
    ensures counts { (result.0 ≡ inserted_in slot.old.handle.held)
        × (result.1 ≡ deleted_in slot.old.handle.held) }
    ensures within { (result.0 ≤ most_insertions) × (result.1 ≤ most_deletions) }
    ensures same { slot.new.handle.held ≡ slot.old.handle.held }
{
    (klsm_inserted(slot), klsm_deleted(slot))
}

// Takes the members out of their slots, in order, and answers the last share of the board.
fn take_members(
    alloc: Global,
    slots: &mut [Slot],
    members: &mut Vec<WideMember>,
) -> Option<Arc<WideBoard, Global>>
    requires empty { members.old.items ≡ [] }
    requires room { length slots.old ≤ vec_capacity members.old }
    ensures closed { AreClosed slots.new }
    ensures members { members.new.items ≡ members_of (owned_in slots.old) }
    ensures board { MatchOption result (members.new.items ≡ [])
        (λ board. HasOneOf (arc_value board) members.new.items) }
{
    let mut last = None;
    for i in 0..slots.len() {
        if let Some(board) = take_member(alloc, &mut slots[i], members) {
            last = Some(board);
        }
    }
    last
}

// Takes the member out of a slot, if there is one, and answers its share of the board.
fn take_member(
    alloc: Global,
    slot: &mut Slot,
    members: &mut Vec<WideMember>,
) -> Option<Arc<WideBoard, Global>>
    requires room { length members.old.items + 1 ≤ vec_capacity members.old }
    ensures closed { slot.new.handle.held ≡ [] }
    ensures members { members.new.items ≡ members.old.items ++ members_of slot.old.handle.held }
    ensures capacity { vec_capacity members.new ≡ vec_capacity members.old }
    ensures board { MatchOption result (slot.old.handle.held ≡ [])
        (λ board. (member : Member MOST_K MOST_LEVELS) × (members_of slot.old.handle.held ≡ member ∷ [])
        × IsOf member (arc_value board)) }
{
    let owned = slot.take(alloc)?;
    let (board, member) = Box::into_inner(owned).into_parts();
    members.push_reserved(member);
    Some(board)
}

// Ends the board, whose members these are, and copies what is left. `None` where it has another owner.
fn finish(
    board: Arc<WideBoard, Global>,
    members: Vec<WideMember>,
    items: Vec<Item>,
    left: &mut [PlainItem],
) -> Option<Account>
    requires whole { AreAllOfTheirBoard members.items }
    requires one { HasOneOf (arc_value board) members.items }
    requires empty { items.items ≡ [] }
    requires room { length (flat_map inserted (map own_steps members.items))
        ≤ length (flat_map deleted (map own_steps members.items)) + vec_capacity items }
    ensures some { IfSome result (λ account. IsAccount members.items account left.old left.new) }
    ensures none { result ≡ None → left.new ≡ left.old }
{
    let board = Arc::into_inner(board)?;
    let Ok(answer) = board.finish_into(members, items) else {
        unreachable!();
    };
    copy_items(answer.left.as_slice(), left);
    Some(Account {
        inserted: answer.inserted,
        deleted: answer.deleted,
        left: answer.left.len() as u64,
    })
}
