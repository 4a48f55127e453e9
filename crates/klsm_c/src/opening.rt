//! How C opens a queue.
ghost use Rattle.std.specs.Prelude.{◌≡◌, ◌≢◌, ◌<◌, ◌≤◌, ◌⊎◌, ◌↔◌, ◌++◌, true, false, length, map, drop, IfSome, None};
ghost use Rattle.klsm_run.specs.declared.limits.TheConstants.{MOST_K, MOST_THREADS};
ghost use Rattle.klsm_c.specs.Slots.{alone, held_in, some_open};
ghost use Rattle.klsm_c.specs.Codes as codes;
ghost use Rattle.klsm_c.specs.Opening.{AreOpened, pick_by};

use crate::codes::{BAD_COUNT, BAD_K, BAD_PICK, BAD_REFILL, NO_MEMORY, OK, OPEN};
use crate::queue::Queue;
use crate::slot::Slot;
use klsm_board::SizesError;
use klsm_owned::{OwnedMember, Pick, open_board};
use std::alloc::Global;

/// Opens a queue with a member in each of its first slots, whose deletions move no items, and
/// who do not balance. Where it is refused, nothing changes.
#[unsafe(no_mangle)]
pub extern "C" fn klsm_open(
    alloc: Global,
    queue: &mut Queue,
    threads: usize,
    k: usize,
    pick: u32,
    seed: u64,
) -> i32
    ensures ok { result ≡ codes.ok → AreOpened threads k pick seed 0 0 queue.new.slots }
    ensures refused { result ≢ codes.ok → queue.new ≡ queue.old }
    ensures open { (result ≡ codes.already_open) ↔ (some_open queue.old.slots ≡ true) }
    ensures bad_pick { (result ≡ codes.bad_pick)
        ↔ ((some_open queue.old.slots ≡ false) × (2 < pick)) }
    ensures bad_count { (result ≡ codes.bad_count)
        ↔ ((some_open queue.old.slots ≡ false) × (pick ≤ 2)
        × ((threads ≡ 0) ⊎ (MOST_THREADS < threads))) }
    ensures bad_k { (result ≡ codes.bad_k)
        ↔ ((some_open queue.old.slots ≡ false) × (pick ≤ 2)
        × (1 ≤ threads) × (threads ≤ MOST_THREADS) × (MOST_K < k)) }
    ensures codes { (result ≡ codes.ok) ⊎ (result ≡ codes.no_memory) ⊎ (result ≡ codes.already_open)
        ⊎ (result ≡ codes.bad_count) ⊎ (result ≡ codes.bad_k) ⊎ (result ≡ codes.bad_pick) }
{
    klsm_open_with_balance(alloc, queue, threads, k, pick, seed, 0, 0)
}

/// The same, and a deletion that took a shared item moves at most `refill` of the least shared items to
/// its member's own part, and before each `balance`-th of its deletions a member balances with another one.
#[unsafe(no_mangle)]
pub extern "C" fn klsm_open_with_balance(
    alloc: Global,
    queue: &mut Queue,
    threads: usize,
    k: usize,
    pick: u32,
    seed: u64,
    refill: usize,
    balance: u32,
) -> i32
    ensures ok { result ≡ codes.ok → AreOpened threads k pick seed refill balance queue.new.slots }
    ensures refused { result ≢ codes.ok → queue.new ≡ queue.old }
    ensures open { (result ≡ codes.already_open) ↔ (some_open queue.old.slots ≡ true) }
    ensures bad_pick { (result ≡ codes.bad_pick)
        ↔ ((some_open queue.old.slots ≡ false) × (2 < pick)) }
    ensures bad_count { (result ≡ codes.bad_count)
        ↔ ((some_open queue.old.slots ≡ false) × (pick ≤ 2)
        × ((threads ≡ 0) ⊎ (MOST_THREADS < threads))) }
    ensures bad_k { (result ≡ codes.bad_k)
        ↔ ((some_open queue.old.slots ≡ false) × (pick ≤ 2)
        × (1 ≤ threads) × (threads ≤ MOST_THREADS) × (MOST_K < k)) }
    ensures bad_refill { (result ≡ codes.bad_refill)
        ↔ ((some_open queue.old.slots ≡ false) × (pick ≤ 2)
        × (1 ≤ threads) × (threads ≤ MOST_THREADS) × (k ≤ MOST_K) × (k < refill)) }
    ensures codes { (result ≡ codes.ok) ⊎ (result ≡ codes.no_memory) ⊎ (result ≡ codes.already_open)
        ⊎ (result ≡ codes.bad_count) ⊎ (result ≡ codes.bad_k) ⊎ (result ≡ codes.bad_pick) ⊎ (result ≡ codes.bad_refill) }
{
    if some_is_open(&queue.slots) {
        return OPEN;
    }
    let Some(pick) = pick_from(pick) else {
        return BAD_PICK;
    };
    match open_board(alloc, threads, k, pick, seed, refill, balance) {
        Ok(members) => {
            fill_front(&mut queue.slots, members);
            OK
        }
        Err(SizesError::BadThreads) => BAD_COUNT,
        Err(SizesError::BadK) => BAD_K,
        Err(SizesError::BadRefill) => BAD_REFILL,
        Err(SizesError::BadQuota | SizesError::NoMemory) => NO_MEMORY,
    }
}

// Whether some slot has a member.
pub(crate) fn some_is_open(slots: &[Slot]) -> bool
    ensures { result ≡ some_open slots.now }
{
    slots.iter().any(|slot| slot.is_open())
}

// The pick that C names by a number.
fn pick_from(number: u32) -> Option<Pick>
    ensures some { IfSome result (λ pick. (number ≤ 2) × (pick ≡ pick_by number)) }
    ensures none { (result ≡ None) ↔ (2 < number) }
{
    match number {
        0 => Some(Pick::First),
        1 => Some(Pick::Last),
        2 => Some(Pick::Random),
        _ => None,
    }
}

// Puts the members into the first slots, in order.
fn fill_front(slots: &mut [Slot], mut members: Vec<Box<OwnedMember, Global>>)
    requires { length members.items ≤ length slots.old }
    ensures { held_in slots.new ≡ map alone (map (λ b. b.value) members.items)
        ++ drop (length members.items) (held_in slots.old) }
{
    for i in 0..members.len() {
        slots[i].fill(members.remove(0));
    }
}
