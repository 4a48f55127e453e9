//! What a seat knows of the incumbent, the rule of its table, and what each step tells.
use atomic_table::{Join, Play, Split, TableRule};
use klsm_instance::Instance;
use std::collections::LinkedList;
use std::marker::{Brand, PhantomData};

/// What a seat knows. No value of it is made.
pub struct View {
    /// The numbers by which it raised the word, the latest first.
    pub raised: LinkedList<u64>,
    /// The greatest number that it found there.
    pub found: u64,
}

/// The word is the greatest of the numbers that the seats raised it by.
pub struct Highest;

impl TableRule<(), View, Instance> for Highest {
    ghost use Rattle.klsm_knapsack.specs.Highest.{IsHighest, nothing_yet};

    ghost holds = { IsHighest };

    ghost first = { λ _. nothing_yet };
}

/// Which problem's selections a step is about. What a step tells is said by a type, which can name no
/// value, so a type names the problem; the call that makes the step chooses it, by `Brand`.
pub trait About {
    ghost use Rattle.klsm_instance.specs.Selections.{Problem};

    ghost problem: { Problem };
}

impl About for Brand {
    ghost use Rattle.std.specs.Prelude.{[]};

    ghost problem = { record { capacity = 0; things = [] } };
}

/// A load.
pub(crate) struct Found<D> {
    of: PhantomData<D>,
}

impl<D: About> Play<(), View> for Found<D> {
    ghost use Rattle.klsm_knapsack.specs.Highest.{finds};

    ghost then = { finds D.problem };
}

/// A fetch-max.
pub(crate) struct Raised<D> {
    of: PhantomData<D>,
}

impl<D: About> Play<(), View> for Raised<D> {
    ghost use Rattle.klsm_knapsack.specs.Highest.{raises};

    ghost then = { raises D.problem };
}

/// A new seat knows nothing yet.
pub(crate) struct Another;

impl Split<View> for Another {
    ghost use Rattle.klsm_knapsack.specs.Highest.{nothing_yet};

    ghost left = { λ v. v };

    ghost right = { λ _. nothing_yet };
}

/// One seat knows what two knew.
pub(crate) struct Together;

impl Join<View> for Together {
    ghost use Rattle.klsm_knapsack.specs.Highest.{nothing_yet, together};

    ghost both = { together };

    ghost spent = { nothing_yet };
}
