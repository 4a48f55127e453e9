//! LSMs whose items differ in their owners: each call that adds items adds those of the next owner.
ghost use Rattle.std.specs.Prelude.{◌≡◌, ◌<◌, length};
ghost use Rattle.std.specs.List.{All, AllByRecursion};
ghost use Rattle.klsm_lsm.specs.Lsm.{content};
ghost use Rattle.klsm_lsm.specs.Limit.{IsLevelCount};

use crate::items::{are_keys, has_blocks, has_keys, heap_run_of, item, run_of};
use crate::rationed::Rationed;
use klsm_lsm::{Lsm, LsmError, Refused};
use klsm_run::{FixedRun, HeapRun, Item, Run};
use std::alloc::Global;

/// An LSM, and the number of owners that have added items. Their numbers are smaller, so the items of the next owner
/// are new.
#[derive(Drop)]
pub struct Grown<R: Run, const LEVELS: usize> {
    pub lsm: Lsm<R, LEVELS>,
    pub owners: u32,
    ghost owned: { All (λ x. x.stamp.owner < owners) (content lsm) },
}

/// One of four levels, over runs on the heap whose growths are rationed.
pub type RationedGrown<'a> = Grown<HeapRun<&'a Rationed<Global>>, 4>;

/// One of eight levels, over fixed runs of 64 items.
pub type FixedGrown = Grown<FixedRun<64>, 8>;

/// One of eight levels, over runs on the heap.
pub type HeapGrown = Grown<HeapRun, 8>;

/// How items are put in.
#[derive(Clone, Copy)]
pub enum How {
    /// As a run that is handed over.
    Run,
    /// As a copy of a run.
    Copy,
}

impl<R: Run, const LEVELS: usize> Grown<R, LEVELS> {
    /// An LSM with no item.
    pub fn new() -> Self
        requires { IsLevelCount LEVELS }
    {
        Grown {
            lsm: Lsm::new(),
            owners: 0,
        }
    }

    /// Lets all items go.
    pub fn clear(&mut self)
        requires { IsLevelCount LEVELS }
    {
        self.lsm = Lsm::new();
    }

    /// Absorbs a run of the next owner. If there is no next owner, it returns the run as if the LSM were full.
    pub fn absorb(&mut self, run: R) -> Result<(), Refused<R>>
        requires some { 0 < length (R.items run) }
        requires owned { AllByRecursion (λ x. x.stamp.owner ≡ self.old.owners) (R.items run) }
    {
        let Some(next) = self.owners.checked_add(1) else {
            return Err(Refused {
                why: LsmError::Full,
                run,
            });
        };
        let answer = self.lsm.absorb(run);
        self.owners = next;
        answer
    }

    /// Removes an item, if the block and the item exist.
    pub fn remove(&mut self, block: usize, index: usize) -> Option<Item> {
        if block >= self.lsm.blocks() || index >= self.lsm.block(block).len() {
            return None;
        }
        Some(self.lsm.remove(block, index))
    }
}

impl<'a> RationedGrown<'a> {
    /// Absorbs a run of these keys with so many growths granted. `None` if the run is refused and comes back changed.
    pub fn absorb_keys(
        &mut self,
        heap: &'a Rationed<Global>,
        keys: &[u64],
        growths: u64,
    ) -> Option<Result<(), LsmError>> {
        if !are_keys(keys) {
            return None;
        }
        heap.allow(1);
        let run = heap_run_of(heap, self.owners, keys)?;
        heap.allow(growths);
        checked(self.absorb(run), keys)
    }

    /// Absorbs a copy of the run of these keys with so many growths granted.
    pub fn absorb_copy(
        &mut self,
        heap: &'a Rationed<Global>,
        keys: &[u64],
        growths: u64,
    ) -> Option<Result<(), LsmError>> {
        if !are_keys(keys) {
            return None;
        }
        let Some(next) = self.owners.checked_add(1) else {
            return None;
        };
        let run = run_of(self.owners, keys);
        heap.allow(growths);
        let answer = self.lsm.absorb_copy(heap, &run);
        self.owners = next;
        Some(answer)
    }

    /// Puts the items of these keys in.
    pub fn add(
        &mut self,
        heap: &'a Rationed<Global>,
        how: How,
        keys: &[u64],
        growths: u64,
    ) -> Option<Result<(), LsmError>> {
        match how {
            How::Run => self.absorb_keys(heap, keys, growths),
            How::Copy => self.absorb_copy(heap, keys, growths),
        }
    }

    /// Whether its blocks have these keys.
    pub fn has(&self, blocks: &[&[u64]]) -> bool {
        has_blocks(&self.lsm, blocks)
    }

    /// Has the items of these runs in place of its own, with all growths granted.
    pub fn refill(&mut self, heap: &'a Rationed<Global>, how: How, runs: &[&[u64]]) -> Option<()> {
        self.clear();
        for keys in runs {
            self.add(heap, how, keys, u64::MAX)?.ok()?;
        }
        Some(())
    }
}

impl FixedGrown {
    /// Inserts an item with a key.
    pub fn insert(&mut self, key: u64) -> Option<Result<(), LsmError>> {
        let Some(next) = self.owners.checked_add(1) else {
            return None;
        };
        let answer = self.lsm.insert(item(self.owners, 0, key));
        self.owners = next;
        Some(answer)
    }

    /// Inserts items with these keys, one by one.
    pub fn insert_all(&mut self, keys: &[u64]) -> Option<()> {
        for key in keys {
            self.insert(*key)?.ok()?;
        }
        Some(())
    }

    /// Absorbs a run of these keys. `None` if the run is refused and comes back changed.
    pub fn absorb_keys(&mut self, keys: &[u64]) -> Option<Result<(), LsmError>> {
        if !are_keys(keys) {
            return None;
        }
        checked(self.absorb(run_of(self.owners, keys)), keys)
    }

    /// Has the items of these runs in place of its own.
    pub fn refill_fixed(&mut self, runs: &[&[u64]]) -> Option<()> {
        self.clear();
        for keys in runs {
            self.absorb_keys(keys)?.ok()?;
        }
        Some(())
    }
}

impl HeapGrown {
    /// Absorbs a run of these keys. `None` if the run is refused and comes back changed.
    pub fn absorb_keys_of(&mut self, alloc: Global, keys: &[u64]) -> Option<Result<(), LsmError>> {
        if !are_keys(keys) {
            return None;
        }
        let run = heap_run_of(alloc, self.owners, keys)?;
        checked(self.absorb(run), keys)
    }
}

// Why a run was refused, if it was. `None` if it comes back with other keys.
fn checked<R: Run>(answer: Result<(), Refused<R>>, keys: &[u64]) -> Option<Result<(), LsmError>> {
    match answer {
        Ok(()) => Some(Ok(())),
        Err(Refused { why, run }) => has_keys(&run, keys).then_some(Err(why)),
    }
}
