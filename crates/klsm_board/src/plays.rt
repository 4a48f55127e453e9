//! What a step on a lock or on the front tells the call that makes it. These types are for the proofs alone.
//!
//! A step of the table is passed a type, one of the markers below. The marker's ghost item `then` is what the caller
//! learns: a relation of the step, the seat before it, the number found (at a store, the number stored) and the seat
//! after it. What comes of a step depends on what the call intends, and that is the marker's parameter: an `Intent`,
//! whose ghost items say for which board and thread the step is, which events may be committed, and which item goes.
//! It is a type and no value, since the table reads `then` off a type, and since a condition on events is no value of
//! a program: nothing of an intent is there when the board runs. A call passes `Brand`, the kit's type for which the
//! caller's proof picks the ghost items (`ghosts-..` in `proofs/steps`); those of the `impl` below stand for none.
//! In `steps.rt` the clause `outcome` is both sides of this: as a premise, what the caller has to show of its intent,
//! that it is for this board and this thread; as a result, what the caller learns, which is `then` of that intent.
use crate::rule::{Holding, View};
use atomic_table::Play;
use std::marker::{Brand, PhantomData};

/// What a call intends by the step that it makes.
pub trait Intent {
    ghost use Rattle.std.specs.Prelude.{ℕ};
    ghost use Rattle.klsm_run.specs.declared.item.Item.{Item};
    ghost use Rattle.klsm_schedules.specs.declared.step.Event.{Event};
    ghost use Rattle.klsm_board.specs.declared.sizes.Sizes.{Sizes};

    // The board's numbers, and the thread that steps.
    ghost sizes: { Sizes };

    ghost thread: { ℕ };

    // What is true of the event that is committed.
    ghost fits: { Event → Type 0 };

    // The item that is deleted, where its key is below the front.
    ghost least: { Item };
}

impl Intent for Brand {
    ghost sizes = { record { threads = 0; k = 0; quota = 0; refill = 0 } };

    ghost thread = { 0 };

    ghost fits = { λ _. Unit {0} };

    ghost least = { record { key = 0; stamp = record { owner = 0; number = 0 }; load = 0 } };
}

/// A part is acquired, or tried in vain.
pub(crate) struct Acquire<D> {
    of: PhantomData<D>,
}

impl<S: Holding, D: Intent> Play<S, View> for Acquire<D> {
    ghost use Rattle.klsm_board.specs.Steps.{attempted, on_part};

    ghost then = { on_part (attempted S.content S.suits D.sizes D.thread) };
}

/// The lock of a part is looked at. A part that another thread holds is missed.
pub(crate) struct Watch<D> {
    of: PhantomData<D>,
}

impl<S: Holding, D: Intent> Play<S, View> for Watch<D> {
    ghost use Rattle.klsm_board.specs.Steps.{watched, on_part};

    ghost then = { on_part (watched D.sizes D.thread) };
}

/// The part that was acquired last is released.
pub(crate) struct Release<D> {
    of: PhantomData<D>,
}

impl<S: Holding, D: Intent> Play<S, View> for Release<D> {
    ghost use Rattle.klsm_board.specs.Steps.{released, on_part};

    ghost then = { on_part (released D.sizes D.thread) };
}

/// An event takes effect, and the part that was acquired last is released.
pub(crate) struct Commit<D> {
    of: PhantomData<D>,
}

impl<S: Holding, D: Intent> Play<S, View> for Commit<D> {
    ghost use Rattle.klsm_board.specs.Steps.{committed, on_part};

    ghost then = { on_part (committed D.fits D.sizes D.thread) };
}

/// An event takes effect where the front is set.
pub(crate) struct SetFront<D> {
    of: PhantomData<D>,
}

impl<S: Holding, D: Intent> Play<S, View> for SetFront<D> {
    ghost use Rattle.klsm_board.specs.Steps.{set_front};

    ghost then = { set_front D.fits D.sizes D.thread };
}

/// The front is looked at: an item whose key is below it is deleted, and else the look is noted.
pub(crate) struct Look<D> {
    of: PhantomData<D>,
}

impl<S: Holding, D: Intent> Play<S, View> for Look<D> {
    ghost use Rattle.klsm_board.specs.Steps.{looked};

    ghost then = { looked D.least D.sizes D.thread };
}

/// The front is looked at, and that is noted.
pub(crate) struct Glance<D> {
    of: PhantomData<D>,
}

impl<S: Holding, D: Intent> Play<S, View> for Glance<D> {
    ghost use Rattle.klsm_board.specs.Steps.{glanced};

    ghost then = { glanced D.sizes D.thread };
}

/// A thread marks the key that it works at.
pub(crate) struct Mark<D> {
    of: PhantomData<D>,
}

impl<S: Holding, D: Intent> Play<S, View> for Mark<D> {
    ghost use Rattle.klsm_board.specs.Steps.{mark_stored};

    ghost then = { mark_stored D.sizes D.thread };
}

/// The key that a thread works at is seen, and that is noted.
pub(crate) struct See<D> {
    of: PhantomData<D>,
}

impl<S: Holding, D: Intent> Play<S, View> for See<D> {
    ghost use Rattle.klsm_board.specs.Steps.{saw, on_mark};

    ghost then = { on_mark (saw D.sizes D.thread) };
}

/// A thread's list comes to the front of those that the seat knows.
pub(crate) struct Turn<D> {
    of: PhantomData<D>,
}

impl<S: Holding, D: Intent> Play<S, View> for Turn<D> {
    ghost use Rattle.klsm_board.specs.Steps.{turned_to};

    ghost then = { turned_to D.sizes D.thread };
}
