//! The rule of the board's table: what its words, its slots and its seats always are together.
//!
//! Word `part * STRIDE` is the lock of a part: 0 while it is free, and `t + 1` while thread t holds
//! it. The slot of that number has the part. Behind the locks, where that of one part more would be,
//! is the front: the key of the shared part's least item. Right behind the lock of a thread's own part
//! is its mark: how far the key of the item that it works at is below the greatest number, so 0 where it
//! works at none. A seat knows the own steps of one thread, and at first and at last those of several.
ghost use Rattle.std.specs.Prelude.{ℕ, List};
ghost use Rattle.klsm_run.specs.declared.item.Item.{Item};
ghost use Rattle.klsm_board.specs.declared.sizes.Sizes.{Sizes};

use crate::sizes::Sizes;
use atomic_table::{Seat, Shared, TableRule};
use klsm_schedules::Entry;
use std::collections::LinkedList;
use std::marker::PhantomData;

/// How far the lock words and the front stand apart: two lines of the cache, which a processor fetches together.
/// Of the words between only the marks are used, each in the line of the lock that its thread has in hand when it marks.
pub(crate) const STRIDE: usize = 16;

/// A thread's own steps. No value of it is made.
pub struct Own {
    pub thread: usize,
    pub steps: LinkedList<Entry>,
}

/// What a seat knows: the own steps of some threads. No value of it is made.
pub struct View {
    pub lists: LinkedList<Own>,
}

/// What stands in a slot.
pub trait Holding {
    // The items of the part, in ascending order.
    ghost content: { Self → List Item };

    // It is the part that stands in this slot of a board with this k.
    ghost suits: { ℕ → ℕ → Self → Type 0 };

    // The items on their way to an own part: those that a refill moved out of the shared part and that
    // are still to be merged into this one. Of no meaning while the part is at home.
    ghost arriving: { Self → List Item };
}

/// The rule.
pub struct Law<S> {
    of: PhantomData<S>,
}

impl<S: Holding> TableRule<S, View, Sizes> for Law<S> {
    ghost use Rattle.klsm_board.specs.Rule.{Ruled, everyone};

    ghost holds = { Ruled S.content S.suits };

    ghost first = { everyone };
}

/// The locks and slots of a board.
pub(crate) type Locks<S> = Shared<S, View, Sizes, Law<S>>;

/// What a member steps with.
pub(crate) type MemberSeat<S> = Seat<S, View>;
