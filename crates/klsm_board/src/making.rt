//! How a board is made.
ghost use Rattle.std.specs.Prelude.{All, ◌≡◌, ◌<◌, ◌≤◌, ◌+◌, ◌∷◌, ◌↔◌, ◌⊎◌, ℕ, [], length, vec_len, IfOk, IsErrAnd};
ghost use Rattle.klsm_run.specs.declared.limits.TheConstants.{MOST_THREADS, PROGRAM_THREADS};
ghost use Rattle.klsm_run.specs.Capacity.{IsCapacity};
ghost use Rattle.klsm_parts.specs.Limit.{IsLevelCount};
ghost use Rattle.klsm_board.specs.Rule.{view, fresh};
ghost use Rattle.klsm_board.specs.Members.{AreSizes, most_insertions};
ghost use Rattle.klsm_board.specs.Boards.{AreNewMembersOf, IsOf, own_steps};
ghost use Rattle.klsm_board.specs.Slots.{AreEmptySlots};

use crate::board::{Board, Member};
use crate::boxed::Boxed;
use crate::errors::{MakeError, SizesError};
use crate::rule::{STRIDE, View};
use crate::sizes::Sizes;
use crate::slot::{BoardSlot, Home, Slot};
use atomic_table::{Seat, Split, Table};
use klsm_parts::{Local, Shared, Unions};
use klsm_run::{Item, MOST_THREADS, PROGRAM_THREADS};
use std::alloc::{AllocError, Global};

/// The most insertions that a board can be made for, of each member: 2^48.
pub const MOST_INSERTIONS: u64 = 281_474_976_710_656;

impl<const CAP: usize, const LEVELS: usize> Board<CAP, LEVELS> {
    /// A board of empty parts for 1 to 16 members, and its members in order. `with_refill` makes larger ones.
    ///
    /// It alone takes the memory of the board itself: a part of about `CAP` items for each member, and
    /// k places beside it, the shared part, two lines of the cache for each lock and for the front, and
    /// the list of members. Later calls take memory for shared blocks alone.
    pub fn new(
        alloc: Global,
        threads: usize,
        k: usize,
        quota: u64,
    ) -> Result<(Self, Vec<Member<CAP, LEVELS>>), MakeError>
        requires capacity { IsCapacity CAP }
        requires levels { IsLevelCount LEVELS }
        ensures sizes { IfOk result (λ made.
            made.0.sizes ≡ record { threads = threads; k = k; quota = quota; refill = 0 }) }
        ensures of { IfOk result (λ made. All (λ member. IsOf member made.0) made.1.items) }
        ensures count { IfOk result (λ made. length made.1.items ≡ threads) }
        ensures crew { IfOk result (λ made. AreNewMembersOf made.0 made.1.items) }

        // Each refusal comes exactly where its cause holds and none before it; else memory lacks.
        ensures bad_threads { IsErrAnd result (λ why. why ≡ MakeError.BadThreads)
            ↔ ((threads ≡ 0) ⊎ (PROGRAM_THREADS < threads)) }
        ensures bad_k { IsErrAnd result (λ why. why ≡ MakeError.BadK)
            ↔ ((1 ≤ threads) × (threads ≤ PROGRAM_THREADS) × (CAP < k)) }
        ensures bad_quota { IsErrAnd result (λ why. why ≡ MakeError.BadQuota)
            ↔ ((1 ≤ threads) × (threads ≤ PROGRAM_THREADS) × (k ≤ CAP) × (most_insertions < quota)) }
    {
        if threads == 0 || threads > PROGRAM_THREADS {
            return Err(MakeError::BadThreads);
        }
        match Board::with_refill(alloc, threads, k, quota, 0) {
            Ok(made) => Ok(made),
            Err(SizesError::BadK) => Err(MakeError::BadK),
            Err(SizesError::BadQuota) => Err(MakeError::BadQuota),
            Err(SizesError::BadThreads | SizesError::BadRefill) => unreachable!(),
            Err(SizesError::NoMemory) => Err(MakeError::NoMemory),
        }
    }

    /// The same for 1 to 64 members, and a deletion that took a shared item moves at most `refill` of the least shared
    /// items to its member's own part, which is at most k. Its member's next deletions then go by the front.
    pub fn with_refill(
        alloc: Global,
        threads: usize,
        k: usize,
        quota: u64,
        refill: usize,
    ) -> Result<(Self, Vec<Member<CAP, LEVELS>>), SizesError>
        requires capacity { IsCapacity CAP }
        requires levels { IsLevelCount LEVELS }
        ensures sizes { IfOk result (λ made. made.0.sizes
            ≡ record { threads = threads; k = k; quota = quota; refill = refill }) }
        ensures of { IfOk result (λ made. All (λ member. IsOf member made.0) made.1.items) }
        ensures count { IfOk result (λ made. length made.1.items ≡ threads) }
        ensures crew { IfOk result (λ made. AreNewMembersOf made.0 made.1.items) }

        // Each refusal comes exactly where its cause holds and none before it; else memory lacks.
        ensures bad_threads { IsErrAnd result (λ why. why ≡ SizesError.BadThreads)
            ↔ ((threads ≡ 0) ⊎ (MOST_THREADS < threads)) }
        ensures bad_k { IsErrAnd result (λ why. why ≡ SizesError.BadK)
            ↔ ((1 ≤ threads) × (threads ≤ MOST_THREADS) × (CAP < k)) }
        ensures bad_quota { IsErrAnd result (λ why. why ≡ SizesError.BadQuota)
            ↔ ((1 ≤ threads) × (threads ≤ MOST_THREADS) × (k ≤ CAP) × (most_insertions < quota)) }
        ensures bad_refill { IsErrAnd result (λ why. why ≡ SizesError.BadRefill)
            ↔ ((1 ≤ threads) × (threads ≤ MOST_THREADS) × (k ≤ CAP) × (quota ≤ most_insertions)
            × (k < refill)) }
    {
        let sizes = sizes_for(CAP, threads, k, quota, refill)?;
        let Ok((board, seat)) = table_of(alloc, sizes) else {
            return Err(SizesError::NoMemory);
        };
        let Ok(members) = deal(alloc, &board, seat) else {
            return Err(SizesError::NoMemory);
        };
        Ok((board, members))
    }
}

// The sizes of a board, if one can be made for them.
fn sizes_for(
    capacity: usize,
    threads: usize,
    k: usize,
    quota: u64,
    refill: usize,
) -> Result<Sizes, SizesError>
    ensures sizes { IfOk result (λ sizes.
        sizes ≡ record { threads = threads; k = k; quota = quota; refill = refill }) }
    ensures in_range { IfOk result (λ sizes. AreSizes capacity sizes) }
    ensures bad_threads { IsErrAnd result (λ why. why ≡ SizesError.BadThreads)
        ↔ ((threads ≡ 0) ⊎ (MOST_THREADS < threads)) }
    ensures bad_k { IsErrAnd result (λ why. why ≡ SizesError.BadK)
        ↔ ((1 ≤ threads) × (threads ≤ MOST_THREADS) × (capacity < k)) }
    ensures bad_quota { IsErrAnd result (λ why. why ≡ SizesError.BadQuota)
        ↔ ((1 ≤ threads) × (threads ≤ MOST_THREADS) × (k ≤ capacity) × (most_insertions < quota)) }
    ensures bad_refill { IsErrAnd result (λ why. why ≡ SizesError.BadRefill)
        ↔ ((1 ≤ threads) × (threads ≤ MOST_THREADS) × (k ≤ capacity) × (quota ≤ most_insertions)
        × (k < refill)) }
{
    if threads == 0 || threads > MOST_THREADS {
        return Err(SizesError::BadThreads);
    }
    if k > capacity {
        return Err(SizesError::BadK);
    }
    if quota > MOST_INSERTIONS {
        return Err(SizesError::BadQuota);
    }
    if refill > k {
        return Err(SizesError::BadRefill);
    }
    Ok(Sizes {
        threads,
        k,
        quota,
        refill,
    })
}

// The board, and a seat that knows all members' lists.
fn table_of<const CAP: usize, const LEVELS: usize>(
    alloc: Global,
    sizes: Sizes,
) -> Result<(Board<CAP, LEVELS>, Seat<BoardSlot<CAP, LEVELS>, View>), AllocError>
    requires capacity { IsCapacity CAP }
    requires levels { IsLevelCount LEVELS }
    requires sizes { AreSizes CAP sizes }
    ensures { IfOk result (λ made. (made.0.sizes ≡ sizes)
        × (made.1.table_id ≡ made.0.table.shared.table_id)
        × (made.1.me ≡ (view (fresh 0 sizes.threads), []))) }
{
    // The locks are free, and the front is that of a part without items.
    let mut words = Vec::from_elem(alloc, 0u64, (sizes.threads + 2) * STRIDE)?;
    words[(sizes.threads + 1) * STRIDE] = u64::MAX;
    let slots = parts(alloc, sizes.threads, sizes.k)?;
    let Ok((table, seat)) = Table::new(alloc, words.as_slice(), slots, &sizes) else {
        return Err(AllocError);
    };
    Ok((Board { table, sizes }, seat))
}

// The parts of a new board, in the order of their slots.
fn parts<const CAP: usize, const LEVELS: usize>(
    alloc: Global,
    threads: usize,
    k: usize,
) -> Result<Vec<BoardSlot<CAP, LEVELS>>, AllocError>
    requires capacity { IsCapacity CAP }
    requires levels { IsLevelCount LEVELS }
    requires k { k ≤ CAP }
    ensures { IfOk result (λ all. (length all.items ≡ threads + 1) × AreEmptySlots k all.items) }
{
    let mut all = Vec::new(alloc);
    all.push(Slot::Common(Boxed::new(alloc, Shared::new(alloc, k))?))?;
    for _ in 0..threads {
        all.push(Slot::Own(empty_home(alloc, k)?))?;
    }
    Ok(all)
}

// An own part without items, and k places beside it.
fn empty_home<const CAP: usize>(
    alloc: Global,
    k: usize,
) -> Result<Boxed<Home<Local<CAP>>>, AllocError>
    requires capacity { IsCapacity CAP }
    requires k { k ≤ CAP }
    ensures { IfOk result (λ home. (home.part ≡ record { k = k; blocks = [] })
        × (vec_len home.places ≡ k) × (home.count ≡ 0) × (home.copy ≡ None)) }
{
    let places = Vec::from_elem(alloc, Item::default(), k)?;
    let home = Home {
        part: Local::new(k),
        places,
        count: 0,
        unions: Unions::new(alloc),
        copy: None,
    };
    Boxed::new(alloc, home)
}

// The members, whose lists are those that the seat knows.
fn deal<const CAP: usize, const LEVELS: usize>(
    alloc: Global,
    board: &Board<CAP, LEVELS>,
    mut seat: Seat<BoardSlot<CAP, LEVELS>, View>,
) -> Result<Vec<Member<CAP, LEVELS>>, AllocError>
    requires table { seat.table_id ≡ board.now.table.shared.table_id }
    requires view { seat.me ≡ (view (fresh 0 board.now.sizes.threads), []) }
    ensures of { IfOk result (λ members. All (λ member. IsOf member board.now) members.items) }
    ensures count { IfOk result (λ members. length members.items ≡ board.now.sizes.threads) }
    ensures crew { IfOk result (λ members. AreNewMembersOf board.now members.items) }
{
    let threads = board.sizes.threads;
    let mut members = Vec::with_capacity(alloc, threads)?;
    for number in 0..threads {
        members.push(next_member(board, &mut seat, number as u32))?;
    }
    Ok(members)
}

/// The first list goes to a new seat.
pub(crate) struct First;

impl Split<View> for First {
    ghost use Rattle.klsm_board.specs.Rule.{view};
    ghost use Rattle.klsm_board.specs.Steps.{others, first_of_all};

    ghost left = { λ v. view (others v.lists) };

    ghost right = { λ v. view (first_of_all v.lists) };
}

// The next member, whose list is the first that the seat knows.
fn next_member<const CAP: usize, const LEVELS: usize>(
    board: &Board<CAP, LEVELS>,
    seat: &mut Seat<BoardSlot<CAP, LEVELS>, View>,
    number: u32,
) -> Member<CAP, LEVELS>
    requires number { number < board.now.sizes.threads }
    requires table { seat.old.table_id ≡ board.now.table.shared.table_id }
    requires view { (left : ℕ) × (seat.old.me ≡ (view (fresh number (left + 1)), [])) }
    ensures table { seat.new.table_id ≡ seat.old.table_id }
    ensures seat { (left : ℕ) → seat.old.me ≡ (view (fresh number (left + 1)), [])
        → seat.new.me ≡ (view (fresh (number + 1) left), []) }
    ensures member { (result.number ≡ number) × IsOf result board.now × (own_steps result ≡ []) }
{
    Member {
        number,
        sizes: board.sizes,
        inserted: 0,
        deleted: 0,
        seat: board.table.shared.split_seat::<First>(seat),
    }
}
