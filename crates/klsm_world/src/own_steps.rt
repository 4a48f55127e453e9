//! A thread's own steps, as a world keeps them.
ghost use Rattle.std.specs.Prelude.{◌≡◌, ◌++◌, ◌∷◌, [], List, length, IfErr, OnOk, OnErr};
ghost use Rattle.klsm_schedules.specs.declared.step.Entry.{Entry};
ghost use Rattle.klsm_world.specs.Kept.{entry_of};
ghost use Rattle.klsm_run.specs.declared.item.Item.{Item};
ghost use Rattle.klsm_schedules.specs.OwnSteps.{inserted, work_after, work_of};

use crate::errors::StepError;
use klsm_run::Item;
use klsm_schedules::Items;
use std::alloc::Allocator;
use std::marker::Model;

/// What a step was, but for the items found or moved.
#[derive(Clone, Copy, Drop)]
pub(crate) enum KeptStep {
    Acquired(u32),
    Put(Item),
    Flush(Item),
    Take(Item),
    Early(Item, u64),
    Nothing,
    Spy(u32),
    Refill,
    Steal(u32),
    Share,
    Released(u32),
    Missed(u32, u32),
    Looked(u64),
    Marked(u64),
    Saw(u32, u64),
}

/// A step of a thread's list.
#[derive(Drop)]
pub(crate) struct Kept<A: Allocator> {
    pub step: KeptStep,
    /// What an acquire found, or an event moved, and else nothing.
    pub items: Items<A>,
}

impl<A: Allocator> Model for Kept<A> {
    ghost Value = { Entry };

    ghost view = { λ kept. entry_of kept.step kept.items };
}

/// A thread's list, with how many insertions it has, and the key of the item that the thread works at.
#[derive(Drop)]
pub(crate) struct OwnSteps<A: Allocator> {
    steps: Vec<Kept<A>, A>,
    insertions: u64,
    work: u64,
}

impl<A: Allocator> Model for OwnSteps<A> {
    ghost Value = { List Entry };

    ghost view = { λ own. own.steps.items };

    ghost invariant = { λ own.
        (own.insertions ≡ length (inserted own.steps.items)) × (own.work ≡ work_of own.steps.items) };
}

impl<A: Allocator> OwnSteps<A> {
    /// No step.
    pub fn new(alloc: A) -> Self
        ensures { result ≡ [] }
    {
        OwnSteps {
            steps: Vec::new(alloc),
            insertions: 0,
            work: u64::MAX,
        }
    }

    /// How many items the thread inserted.
    pub fn insertions(&self) -> u64
        ensures { result ≡ length (inserted self.now) }
    {
        self.insertions
    }

    /// The key of the item that the thread works at, and the greatest number where it works at none.
    pub fn work(&self) -> u64
        ensures { result ≡ work_of self.now }
    {
        self.work
    }

    /// Adds a step.
    pub fn push(&mut self, step: KeptStep, items: Items<A>) -> Result<(), StepError>
        ensures pushed { OnOk result (self.new ≡ self.old ++ entry_of step items ∷ []) }
        ensures refused { IfErr result (λ why. why ≡ StepError.NoMemory) }
        ensures unchanged { OnErr result (self.new ≡ self.old) }
    {
        let insertions = match step {
            KeptStep::Put(_) | KeptStep::Flush(_) => self.insertions + 1,
            _ => self.insertions,
        };
        let work = next_work(self.work, step);
        let Ok(()) = self.steps.push(Kept { step, items }) else {
            return Err(StepError::NoMemory);
        };
        self.insertions = insertions;
        self.work = work;
        Ok(())
    }
}

// The key of the item that a thread works at after a step, from that before it.
fn next_work(work: u64, step: KeptStep) -> u64
    ensures { (items : List Item) → result ≡ work_after work (entry_of step items) }
{
    match step {
        KeptStep::Take(item) => item.key,
        KeptStep::Early(item, _) => item.key,
        KeptStep::Nothing => u64::MAX,
        KeptStep::Marked(key) => key,
        _ => work,
    }
}
