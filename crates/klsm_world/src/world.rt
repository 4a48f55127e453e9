//! A world that runs: it takes steps, and refuses those that are not legal.
ghost use Rattle.std.specs.Prelude.{ℕ, ◌≡◌, ◌≢◌, ◌<◌, ◌≤◌, ◌↔◌, ◌⊎◌, [], replicate, IfOk, IfErr, IsErrAnd};
ghost use Rattle.klsm_run.specs.Content.{sorted, skipped};
ghost use Rattle.klsm_parts.specs.Events.{front_of};
ghost use Rattle.klsm_world.specs.Kept.{IsKept, world_of};
ghost use Rattle.klsm_schedules.specs.LawfulWorlds.{IsLawful};
ghost use Rattle.klsm_schedules.specs.OwnSteps.{shared_part};
ghost use Rattle.klsm_world.specs.WorldView.{IsStepped, WorldView};
ghost use Rattle.klsm_schedules.specs.Worlds.{content_of, first_world, limits_of, live};

mod checking;
mod stepping;

use crate::contents::{all_ascending, count_all_smaller};
use crate::errors::{StepError, WorldError};
use crate::own_steps::OwnSteps;
use crate::world::checking::SHARED;
use klsm_run::Item;
use klsm_schedules::{Items, Step};
use std::alloc::{Allocator, Global};
use std::fmt;
use std::marker::Model;

/// The most threads that a world has.
const WORLD_THREADS: u32 = 16;

/// The most items that an own part may be allowed.
const WORLD_K: usize = 128;

/// A world of threads and parts, and each thread's list of own steps, with the contents that it
/// found.
#[derive(Drop)]
pub struct World<A: Allocator + Copy = Global> {
    threads: u32,
    k: usize,
    // For each part 0 while it is free, and t + 1 while thread t holds it.
    words: Vec<u32, A>,
    // For each part its items, ascending, be it free or held.
    contents: Vec<Items<A>, A>,
    // For each thread its list.
    lists: Vec<OwnSteps<A>, A>,
    alloc: A,
}

impl<A: Allocator + Copy> Model for World<A> {
    ghost Value = { WorldView };

    ghost view = { λ w. record {
      limits = limits_of w.threads w.k;
      world = world_of w.words.items w.contents.items w.lists.items;
    } };

    ghost invariant = { λ w.
        IsKept (limits_of w.threads w.k) w.words.items w.contents.items w.lists.items };
}

impl<A: Allocator + Copy> World<A> {
    /// The first world of `threads` threads, with at most `k` items in an own part: all parts are
    /// free and empty.
    pub fn new(alloc: A, threads: u32, k: usize) -> Result<Self, WorldError>
        ensures made { IfOk result (λ world. world ≡ record {
          limits = limits_of threads k;
          world = first_world (limits_of threads k);
        }) }
        ensures bad_threads { IsErrAnd result (λ why. why ≡ WorldError.BadThreads)
            ↔ ((threads ≡ 0) ⊎ (WORLD_THREADS < threads)) }
        ensures bad_k { IsErrAnd result (λ why. why ≡ WorldError.BadK)
            ↔ ((1 ≤ threads) × (threads ≤ WORLD_THREADS) × (WORLD_K < k)) }
        ensures no_step { IfErr result (λ why.
            (at : ℕ) (error : StepError) → why ≢ WorldError.At at error) }
    {
        if threads == 0 || threads > WORLD_THREADS {
            return Err(WorldError::BadThreads);
        }
        if k > WORLD_K {
            return Err(WorldError::BadK);
        }
        let parts = threads as usize + 1;
        let Ok(words) = Vec::from_elem(alloc, 0, parts) else {
            return Err(WorldError::NoMemory);
        };
        let contents = empty_contents(alloc, parts)?;
        let lists = empty_lists(alloc, threads as usize)?;
        Ok(World {
            threads,
            k,
            words,
            contents,
            lists,
            alloc,
        })
    }

    /// Takes a step where it is legal. It costs a copy of the parts that the step touches.
    pub fn step(&mut self, step: &Step) -> Result<(), StepError>
        ensures { IsStepped self.old step.now result self.new }
    {
        self.check(step)?;
        match step {
            Step::Acquire { thread, part } => self.acquire(*thread, *part),
            Step::Commit { thread, event } => self.commit(*thread, event),
            Step::Release { thread, part } => self.release(*thread, *part),
            Step::Miss { thread, part } => self.miss(*thread, *part),
            Step::Look { thread } => self.look(*thread),
            Step::Mark { thread, key } => self.mark(*thread, *key),
            Step::See { thread, of } => self.see(*thread, *of),
        }
    }

    /// The live items, ascending: those of all parts, free and held.
    pub fn live<B: Allocator>(&self, alloc: B) -> Result<Items<B>, WorldError>
        ensures live { IfOk result (λ items. items ≡ sorted (live self.now.world)) }
        ensures refused { IfErr result (λ why. why ≡ WorldError.NoMemory) }
    {
        Ok(Items::new(all_ascending(alloc, &self.contents)?))
    }

    /// The front: the key of the least item of the shared part, be it free or held, and the greatest
    /// number where it is empty.
    pub fn front(&self) -> u64
        ensures word { result ≡ self.now.world.front }
        ensures front { result ≡ front_of (content_of self.now.world shared_part) }
    {
        match self.contents[SHARED].as_slice().first() {
            Some(item) => item.key,
            None => u64::MAX,
        }
    }

    /// How many live items are smaller than an item. It costs a look at each.
    pub fn skipped(&self, item: Item) -> usize
        ensures skipped { result ≡ skipped (live self.now.world) item }
        ensures lawful { IsLawful self.now.limits self.now.world }
    {
        count_all_smaller(&self.contents, item)
    }
}

/// It shows the limits, the words and the contents of the parts, and not the lists.
impl<A: Allocator + Copy> fmt::Debug for World<A> {
    fn fmt<W: fmt::Write>(&self, f: &mut fmt::Formatter<W>) -> fmt::Result {
        f.debug_struct("World")
            .field("threads", &self.threads)
            .field("k", &self.k)
            .field("words", &self.words)
            .field("contents", &self.contents)
            .finish_non_exhaustive()
    }
}

// The contents of so many parts, which are empty.
fn empty_contents<A: Allocator + Copy>(
    alloc: A,
    parts: usize,
) -> Result<Vec<Items<A>, A>, WorldError>
    ensures empty { IfOk result (λ contents. contents.items ≡ replicate parts []) }
    ensures refused { IfErr result (λ why. why ≡ WorldError.NoMemory) }
{
    let Ok(mut contents) = Vec::with_capacity(alloc, parts) else {
        return Err(WorldError::NoMemory);
    };
    for _ in 0..parts {
        contents.push_reserved(Items::new(Vec::new(alloc)));
    }
    Ok(contents)
}

// The lists of so many threads, which have not stepped.
fn empty_lists<A: Allocator + Copy>(
    alloc: A,
    threads: usize,
) -> Result<Vec<OwnSteps<A>, A>, WorldError>
    ensures empty { IfOk result (λ lists. lists.items ≡ replicate threads []) }
    ensures refused { IfErr result (λ why. why ≡ WorldError.NoMemory) }
{
    let Ok(mut lists) = Vec::with_capacity(alloc, threads) else {
        return Err(WorldError::NoMemory);
    };
    for _ in 0..threads {
        lists.push_reserved(OwnSteps::new(alloc));
    }
    Ok(lists)
}
