//! The board, its members, and a member that holds a part.
ghost use Rattle.std.specs.Prelude.{◌≡◌};
ghost use Rattle.klsm_run.specs.Capacity.{IsCapacity};
ghost use Rattle.klsm_parts.specs.Limit.{IsLevelCount};
ghost use Rattle.klsm_board.specs.Rule.{IsSized};
ghost use Rattle.klsm_board.specs.Members.{AreSizes, IsHolding, IsResting};

use crate::errors::HoldError;
use crate::rule::{Law, MemberSeat, View};
use crate::sizes::Sizes;
use crate::slot::BoardSlot;
use atomic_table::Table;
use klsm_run::{Item, MOST_K, MOST_LEVELS, PROGRAM_K, PROGRAM_LEVELS};
use std::alloc::Global;

/// A relaxed priority queue of several members, each of which may be used by a thread of its own.
#[derive(Drop)]
pub struct Board<const CAP: usize, const LEVELS: usize> {
    pub(crate) table: Table<
        BoardSlot<CAP, LEVELS>,
        View,
        Sizes,
        Law<BoardSlot<CAP, LEVELS>>,
        Global,
    >,
    pub(crate) sizes: Sizes,
    pub ghost key: { table.shared.key ≡ sizes },
    pub ghost sized: { IsSized table.shared.table_id sizes },
    pub ghost in_range: { AreSizes CAP sizes },
    pub ghost capacity: { IsCapacity CAP },
    pub ghost levels: { IsLevelCount LEVELS },
}

/// One of a board's members, with an own part of the board. A member that is dropped leaves its part
/// there.
#[derive(Drop)]
pub struct Member<const CAP: usize, const LEVELS: usize> {
    pub(crate) number: u32,
    pub(crate) sizes: Sizes,
    pub(crate) inserted: u64,
    pub(crate) deleted: u64,
    pub(crate) seat: MemberSeat<BoardSlot<CAP, LEVELS>>,
    pub ghost rests: { IsResting sizes number inserted deleted seat.me },
    pub ghost in_range: { AreSizes CAP sizes },
    pub ghost capacity: { IsCapacity CAP },
    pub ghost levels: { IsLevelCount LEVELS },
}

/// The board of the program: own parts of at most 64 items, and a shared one of at most 1,048,576.
pub type StandardBoard = Board<PROGRAM_K, PROGRAM_LEVELS>;

/// One of its members.
pub type StandardMember = Member<PROGRAM_K, PROGRAM_LEVELS>;

/// The board of the library for C: own parts of at most `MOST_K` items, and a shared one of at most `MOST_SHARED`.
pub type WideBoard = Board<MOST_K, MOST_LEVELS>;

/// One of its members.
pub type WideMember = Member<MOST_K, MOST_LEVELS>;

/// A member that holds one part. No other member can acquire that part. A `Held` that is dropped leaves
/// the lock held for good.
#[derive(Drop)]
pub struct Held<const CAP: usize, const LEVELS: usize> {
    pub(crate) lock: usize,
    pub(crate) number: u32,
    pub(crate) sizes: Sizes,
    pub(crate) inserted: u64,
    pub(crate) deleted: u64,
    pub(crate) len: usize,
    pub(crate) least: Option<Item>,
    pub(crate) seat: MemberSeat<BoardSlot<CAP, LEVELS>>,
    pub ghost holds: { IsHolding sizes number inserted deleted lock len least seat.me },
    pub ghost in_range: { AreSizes CAP sizes },
    pub ghost capacity: { IsCapacity CAP },
    pub ghost levels: { IsLevelCount LEVELS },
}

/// Why a part is not held, and the member that tried.
#[derive(Drop)]
pub struct HoldRefused<const CAP: usize, const LEVELS: usize> {
    /// Why.
    pub why: HoldError,
    /// The member, which goes on as it was.
    pub member: Member<CAP, LEVELS>,
}

impl<const CAP: usize, const LEVELS: usize> Board<CAP, LEVELS> {
    /// The number of members.
    #[inline]
    pub fn threads(&self) -> usize
        ensures threads { result ≡ self.now.sizes.threads }
        ensures in_range { AreSizes CAP self.now.sizes }
    {
        self.sizes.threads
    }

    /// How many items an own part may have.
    #[inline]
    pub fn k(&self) -> usize
        ensures k { result ≡ self.now.sizes.k }
        ensures in_range { AreSizes CAP self.now.sizes }
    {
        self.sizes.k
    }

    /// How many insertions each member may make.
    #[inline]
    pub fn quota(&self) -> u64
        ensures quota { result ≡ self.now.sizes.quota }
        ensures in_range { AreSizes CAP self.now.sizes }
    {
        self.sizes.quota
    }

    /// How many shared items a deletion that took one moves to the own part, at most.
    #[inline]
    pub fn refill(&self) -> usize
        ensures refill { result ≡ self.now.sizes.refill }
        ensures in_range { AreSizes CAP self.now.sizes }
    {
        self.sizes.refill
    }
}
