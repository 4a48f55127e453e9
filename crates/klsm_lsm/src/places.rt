//! Which blocks a change will concern: looks at an LSM that change nothing.
ghost use Rattle.std.specs.Prelude.{◌≡◌, ◌<◌, ◌≤◌, ◌↔◌, [], length, take, drop, slice_index_or, IsTrue, MatchOption};
ghost use Rattle.std.specs.List.{AllByRecursion};
ghost use Rattle.klsm_run.specs.ItemOrder.{is_smaller};
ghost use Rattle.klsm_lsm.specs.Level.{level};
ghost use Rattle.klsm_lsm.specs.Places.{IsCascade, IsPartner, IsLeastBlock, JoinsNext};

use crate::Lsm;
use klsm_run::{Item, Run};

/// The blocks that a run becomes one with: `count` blocks from `first` on. The result stands at
/// `first`.
#[derive(Clone, Copy, Debug, PartialEq, Eq)]
pub struct Cascade {
    /// The first of them.
    pub first: usize,
    /// How many they are.
    pub count: usize,
}

impl<R: Run, const LEVELS: usize> Lsm<R, LEVELS> {
    /// The blocks that each run of a level becomes one with where it is put in.
    pub fn cascade(&self, level: usize) -> Cascade
        ensures { IsCascade self.now level result.first result.count }
    {
        // For the proof: the LSM is lawful.
        let _known = self.len();
        let end = self.place_of_level(level);
        let mut first = end;
        // The level of the run with the blocks from `first` on.
        let mut joined = level;
        while first > 0 && self.block(first - 1).level() == joined {
            first -= 1;
            joined += 1;
        }
        Cascade {
            first,
            count: end - first,
        }
    }

    /// The block that becomes one with this block where an item of it is taken out, if one does.
    pub fn partner(&self, block: usize) -> Option<usize>
        requires { block < length self.now }
        ensures { IsPartner self.now block result }
    {
        // For the proof: a block is not empty, and there are no more blocks than levels.
        let _known = self.block(block);
        let _known = self.blocks();
        if self.joins_next(block, 1) {
            return Some(block + 1);
        }
        None
    }

    // Whether a block without so many of its items becomes one with the next.
    #[inline]
    pub(crate) fn joins_next(&self, block: usize, count: usize) -> bool
        requires block { block < length self.now }
        requires count { count ≤ length (slice_index_or self.now block []) }
        ensures { IsTrue result ↔ JoinsNext self.now block count }
    {
        // For the proof: the LSM is lawful, and it has no more blocks than levels.
        let _known = self.len();
        if self.blocks() - block == 1 {
            return false;
        }
        let left = self.block(block).len() - count;
        left > 0 && left <= 1 << self.block(block + 1).level()
    }

    /// The block that begins with the least item, if there is one. It costs one comparison a block.
    pub fn least_block(&self) -> Option<usize>
        ensures { IsLeastBlock self.now result }
    {
        // For the proof: the LSM is lawful.
        let _known = self.len();
        let mut found: Option<(usize, Item)> = None;
        for block in 0..self.blocks() {
            let first = self.block(block).item_at(0);
            if comes_before(first, found) {
                found = Some((block, first));
            }
        }
        let Some((block, _)) = found else {
            return None;
        };
        Some(block)
    }

    // The number of blocks of a level and above.
    pub(crate) fn place_of_level(&self, least: usize) -> usize
        ensures within { result ≤ length self.now }
        ensures above { AllByRecursion (λ b. least ≤ level b) (take result self.now) }
        ensures below { AllByRecursion (λ b. level b < least) (drop result self.now) }
    {
        // For the proof: the LSM is lawful.
        let _known = self.len();
        let mut place = self.blocks();
        while place > 0 && self.block(place - 1).level() < least {
            place -= 1;
        }
        place
    }
}

/// Whether an item is smaller than the least found so far, where one is found. In a search over
/// blocks the number is that of the block.
#[inline]
pub fn comes_before(item: Item, found: Option<(usize, Item)>) -> bool
    ensures { MatchOption found (IsTrue result) (λ f. result ≡ is_smaller item f.1) }
{
    found.is_none_or(|(_, least)| item.is_before(&least))
}
