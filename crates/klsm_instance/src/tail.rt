//! What lies from a level on.
ghost use Rattle.std.specs.Prelude.{ℕ, List, [], ◌∷◌, ◌≡◌, ◌≤◌, ◌+◌, ◌↔◌, length, drop, IfOk, IsTrue, MatchOption, Some};
ghost use Rattle.std.specs.List.{AllByRecursion};
ghost use Rattle.klsm_instance.specs.declared.thing.Thing.{Thing};
ghost use Rattle.klsm_instance.specs.Limits.{IsThing};
ghost use Rattle.klsm_instance.specs.Nodes.{IsGain};
ghost use Rattle.klsm_instance.specs.Prepared.{IsTail, AreTails, IsSteepestOf};

use crate::thing::Thing;
use std::alloc::{AllocError, Global};

/// The things from a level on: the sum of their values, and the one of greatest value by weight.
#[derive(Clone, Copy, Drop)]
pub(crate) struct Tail {
    value: u64,
    steepest: Option<Thing>,
}

impl Tail {
    // The tail with one thing more before it.
    fn with(self, thing: Thing) -> Tail
        requires thing { IsThing thing }
        requires value { self.value ≤ 32000000 }
        requires steepest { MatchOption self.steepest (Unit {0}) IsThing }
        ensures { (xs : List Thing) → IsTail xs self → IsTail (thing ∷ xs) result }
    {
        Tail {
            value: thing.value + self.value,
            steepest: Some(steeper(thing, self.steepest)),
        }
    }

    /// What the things can add where `left` of the capacity is left.
    #[inline]
    pub(crate) fn gain(&self, left: u64) -> u64
        requires left { left ≤ 1000000000 }
        requires value { self.now.value ≤ 32000000 }
        requires steepest { MatchOption self.now.steepest (Unit {0}) IsThing }
        ensures { (xs : List Thing) → IsTail xs self.now → IsGain xs left result }
    {
        match self.steepest {
            None => 0,
            Some(thing) => self.value.min(left * thing.value / thing.weight),
        }
    }

    /// Whether that is no more than `most`, without a division.
    #[inline]
    pub(crate) fn gains_at_most(&self, left: u64, most: u64) -> bool
        requires left { left ≤ 1000000000 }
        requires value { self.now.value ≤ 32000000 }
        requires steepest { MatchOption self.now.steepest (Unit {0}) IsThing }
        ensures { (xs : List Thing) → IsTail xs self.now → (gain : ℕ) × IsGain xs left gain
            × (IsTrue result ↔ (gain ≤ most)) }
    {
        match self.steepest {
            None => true,
            Some(thing) => { self.value <= most || left * thing.value < (most + 1) * thing.weight }
        }
    }
}

// The one of greater value by weight.
fn steeper(a: Thing, b: Option<Thing>) -> Thing
    requires a { IsThing a }
    requires b { MatchOption b (Unit {0}) IsThing }
    ensures { (xs : List Thing) → IsSteepestOf xs b → IsSteepestOf (a ∷ xs) (Some result) }
{
    match b {
        None => a,
        Some(b) => {
            if a.value * b.weight < b.value * a.weight {
                b
            } else {
                a
            }
        }
    }
}

/// The tails of the things: the n-th is of the last n of them.
pub(crate) fn tails_of(alloc: Global, things: &[Thing]) -> Result<Vec<Tail>, AllocError>
    requires few { length things.now ≤ 32 }
    requires things { AllByRecursion IsThing things.now }
    ensures as_many { IfOk result (λ tails. length tails.items ≡ length things.now + 1) }
    ensures are { IfOk result (λ tails. AreTails things.now tails.items) }
{
    let mut tails = Vec::new(alloc);
    let mut tail = Tail {
        value: 0,
        steepest: None,
    };
    tails.push(tail)?;
    for n in 0..things.len() {
        tail = tail.with(things[things.len() - 1 - n]);
        tails.push(tail)?;
    }
    Ok(tails)
}
