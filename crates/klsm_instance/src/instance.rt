//! Instances, and the bound of a node.
ghost use Rattle.std.specs.Prelude.{ℕ, List, ◌≡◌, ◌≤◌, ◌<◌, ◌+◌, ◌-◌, ◌↔◌, IfOk, IsTrue, length, drop, Some, slice_get, option_map};
ghost use Rattle.std.specs.List.{AllByRecursion};
ghost use Rattle.klsm_instance.specs.Selections.{Problem, value_of, weight_of};
ghost use Rattle.klsm_instance.specs.Limits.{IsInRange, IsThing};
ghost use Rattle.klsm_instance.specs.Nodes.{IsNode, IsBound, IsGain, NoneAbove};
ghost use Rattle.klsm_instance.specs.Prepared.{IsPrepared};

use crate::tail::{Tail, tails_of};
use crate::thing::Thing;
use std::alloc::{AllocError, Global};
use std::marker::Model;

/// A problem: at most 32 things, each of a value and a weight, and what a selection may weigh.
///
/// A contract sees it as that problem. It keeps for each suffix of its things the sum of their
/// values and the one of greatest value by weight, so that a bound takes no look at them.
#[derive(Drop)]
pub struct Instance {
    capacity: u64,
    things: Vec<Thing>,
    tails: Vec<Tail>,
}

impl Model for Instance {
    ghost Value = { Problem };

    ghost view = { λ i. record { capacity = i.capacity; things = i.things.items } };

    ghost invariant = { λ i. IsPrepared i.capacity i.things.items i.tails.items };
}

impl Instance {
    /// The problem of these things.
    pub(crate) fn new(
        alloc: Global,
        capacity: u64,
        things: Vec<Thing>,
    ) -> Result<Instance, AllocError>
        requires range { IsInRange (record { capacity = capacity; things = things.items }) }
        ensures { IfOk result (λ i. i ≡ record { capacity = capacity; things = things.items }) }
    {
        let tails = tails_of(alloc, things.as_slice())?;
        Ok(Instance {
            capacity,
            things,
            tails,
        })
    }

    /// How many things there are, at most 32.
    #[inline]
    pub fn len(&self) -> usize
        ensures len { result ≡ length self.now.things }
        ensures range { IsInRange self.now }
    {
        self.things.len()
    }

    /// What a selection may weigh.
    #[inline]
    pub fn capacity(&self) -> u64
        ensures { result ≡ self.now.capacity }
    {
        self.capacity
    }

    /// The value of thing `i`, which are counted from 0.
    #[inline]
    pub fn value(&self, i: usize) -> u64
        requires { i < length self.now.things }
        ensures { option_map (λ x. x.value) (slice_get self.now.things i) ≡ Some result }
    {
        self.things[i].value
    }

    /// The weight of thing `i`.
    #[inline]
    pub fn weight(&self, i: usize) -> u64
        requires { i < length self.now.things }
        ensures { option_map (λ x. x.weight) (slice_get self.now.things i) ≡ Some result }
    {
        self.things[i].weight
    }

    // Thing `i`.
    #[inline]
    pub(crate) fn thing(&self, i: usize) -> Thing
        requires { i < length self.now.things }
        ensures thing { slice_get self.now.things i ≡ Some result }
        ensures range { IsInRange self.now }
    {
        self.things[i]
    }

    // Whether thing `i` is the same as this one.
    #[inline]
    pub(crate) fn is_thing(&self, i: usize, other: Thing) -> bool
        requires { i < length self.now.things }
        ensures { IsTrue result ↔ (slice_get self.now.things i ≡ Some other) }
    {
        let thing = self.things[i];
        thing.value == other.value && thing.weight == other.weight
    }

    // All things, in a list of one's own.
    pub(crate) fn things_in(&self, alloc: Global) -> Result<Vec<Thing>, AllocError>
        ensures things { IfOk result (λ things. things.items ≡ self.now.things) }
        ensures range { IsInRange self.now }
    {
        Vec::from_slice(alloc, self.things.as_slice())
    }

    /// The value and the weight of a selection, which has thing i where bit i of `picks` is set.
    pub fn totals(&self, picks: u64) -> Thing
        ensures value { result.value ≡ value_of self.now picks }
        ensures weight { result.weight ≡ weight_of self.now picks }
    {
        let mut totals = Thing {
            value: 0,
            weight: 0,
        };
        let mut rest = picks;
        for thing in self.things.iter() {
            // Branch-free: no processor could predict the branch.
            let bit = rest % 2;
            totals.value += bit * thing.value;
            totals.weight += bit * thing.weight;
            rest /= 2;
        }
        totals
    }

    /// The bound of a node, which fixes the choices of the first `level` things and takes those in
    /// `picks`: the value taken plus the lesser of the sum of the other values and of what the other
    /// thing of greatest value by weight would give if it filled all that is left of the capacity.
    pub fn bound(&self, level: usize, picks: u64) -> u64
        requires node { IsNode self.now level picks }
        ensures exact { IsBound self.now level picks result }
        ensures small { result ≤ 32000000 }
        ensures sound { NoneAbove self.now level picks result }
    {
        let taken = self.totals(picks);
        self.bound_with(level, picks, taken)
    }

    // The same, where the value and the weight of `picks` are at hand.
    #[inline]
    pub(crate) fn bound_with(&self, level: usize, picks: u64, taken: Thing) -> u64
        requires node { IsNode self.now level picks }
        requires value { taken.value ≡ value_of self.now picks }
        requires weight { taken.weight ≡ weight_of self.now picks }
        ensures exact { IsBound self.now level picks result }
        ensures small { result ≤ 32000000 }
        ensures sound { NoneAbove self.now level picks result }
    {
        // For the proof: the contract alone names the picks.
        let _ = picks;
        taken.value + self.gain(level, self.capacity - taken.weight)
    }

    // Whether that is no more than a value.
    #[inline]
    pub(crate) fn is_bounded_with(&self, level: usize, picks: u64, taken: Thing, value: u64) -> bool
        requires node { IsNode self.now level picks }
        requires value { taken.value ≡ value_of self.now picks }
        requires weight { taken.weight ≡ weight_of self.now picks }
        ensures exact { (bound : ℕ) × IsBound self.now level picks bound
            × (IsTrue result ↔ (bound ≤ value)) }
        ensures sound { IsTrue result → NoneAbove self.now level picks value }
    {
        // For the proof: the contract alone names the picks.
        let _ = picks;
        let tail = &self.tails[self.things.len() - level];
        taken.value <= value
            && tail.gains_at_most(self.capacity - taken.weight, value - taken.value)
    }

    // What the things from a level on can add where `left` of the capacity is left.
    #[inline]
    fn gain(&self, level: usize, left: u64) -> u64
        requires level { level ≤ length self.now.things }
        requires left { left ≤ self.now.capacity }
        ensures gain { IsGain (drop level self.now.things) left result }
        ensures small { result ≤ 32000000 }
        ensures range { IsInRange self.now }
    {
        self.tails[self.things.len() - level].gain(left)
    }
}
