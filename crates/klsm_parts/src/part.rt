//! Either kind of part.
ghost use Rattle.std.specs.Prelude.{◌≡◌, ◌<◌, ◌↔◌, [], length, slice_get, Some, IsTrue};
ghost use Rattle.klsm_run.specs.Capacity.{IsCapacity};
ghost use Rattle.klsm_lsm.specs.Lsm.{content, IsLsm};
ghost use Rattle.klsm_lsm.specs.Limit.{IsLevelCount};
ghost use Rattle.klsm_parts.specs.Parts.{items_in};
ghost use Rattle.klsm_parts.specs.EitherPart.{state_of, HasRoom};

use crate::{Local, Shared};
use klsm_lsm::Lsm;
use klsm_run::{Item, Run};

/// An own part or the shared one.
#[derive(Drop)]
pub enum Part<const CAP: usize, const LEVELS: usize> {
    /// The part of one member.
    Own(Local<CAP>),
    /// The part that all members share.
    Common(Shared<LEVELS>),
}

impl<const CAP: usize, const LEVELS: usize> Part<CAP, LEVELS> {
    /// The number of items. Every part is a lawful LSM, and an own part has at most k items.
    pub fn len(&self) -> usize
        requires capacity { IsCapacity CAP }
        requires levels { IsLevelCount LEVELS }
        ensures len { result ≡ length (content (state_of self.now).blocks) }
        ensures room { HasRoom self.now }
        ensures lawful { IsLsm (state_of self.now).blocks }
    {
        match self {
            Part::Own(own) => own.len(),
            Part::Common(shared) => shared.len(),
        }
    }

    /// Whether there is no item.
    pub fn is_empty(&self) -> bool
        requires capacity { IsCapacity CAP }
        requires levels { IsLevelCount LEVELS }
        ensures { IsTrue result ↔ (items_in (state_of self.now) ≡ []) }
    {
        self.len() == 0
    }

    /// The least item, if there is one. It costs one comparison a block.
    pub fn least(&self) -> Option<Item>
        requires capacity { IsCapacity CAP }
        requires levels { IsLevelCount LEVELS }
        ensures { result ≡ slice_get (items_in (state_of self.now)) 0 }
    {
        match self {
            Part::Own(own) => own.least(),
            Part::Common(shared) => shared.least(),
        }
    }

    /// Item `index`, counted block after block, the greatest level first. In an own part it costs one step a
    /// block; in the shared one it is searched for, by one pass over its pieces for each item of its block up to it.
    pub fn item_at(&self, index: usize) -> Item
        requires capacity { IsCapacity CAP }
        requires levels { IsLevelCount LEVELS }
        requires index { index < length (content (state_of self.now).blocks) }
        ensures { slice_get (content (state_of self.now).blocks) index ≡ Some result }
    {
        match self {
            Part::Own(own) => item_listed(own.lsm(), index),
            Part::Common(shared) => shared.item_at(index),
        }
    }
}

// Item `index` of an LSM, counted block after block, the greatest level first.
fn item_listed<R: Run, const LEVELS: usize>(lsm: &Lsm<R, LEVELS>, index: usize) -> Item
    requires { index < length (content lsm.now) }
    ensures { slice_get (content lsm.now) index ≡ Some result }
{
    let mut left = index;
    for block in 0..lsm.blocks() {
        let run = lsm.block(block);
        if left < run.len() {
            return run.item_at(left);
        }
        left -= run.len();
    }
    unreachable!();
}
