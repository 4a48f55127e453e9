//! How several items are put into an LSM over fixed runs. No call takes memory, and no store moves.
ghost use Rattle.std.specs.Prelude.{◌≡◌, ◌+◌, ◌-◌, ◌<◌, ◌≤◌, ◌↔◌, ◌++◌, ◌∷◌, [], length, take, drop, IsOk, IfErr, OnOk, OnErr};
ghost use Rattle.arrayvec.specs.ArrayVec.{array_vec_len};
ghost use Rattle.klsm_run.specs.Capacity.{IsCapacity};
ghost use Rattle.klsm_run.specs.Content.{IsAscending, ShareNone};
ghost use Rattle.klsm_lsm.specs.Lsm.{content};
ghost use Rattle.klsm_lsm.specs.Limit.{limit_of};
ghost use Rattle.klsm_lsm.specs.Adding.{add};
ghost use Rattle.klsm_lsm.specs.Slots.{blocks_in};

use crate::fixed::{carry, open_slot, set_slot};
use crate::slots::{close_up, move_on};
use crate::{Lsm, LsmError};
use arrayvec::ArrayVec;
use klsm_run::{FixedRun, Item, Run, level_of};

impl<const CAP: usize, const LEVELS: usize> Lsm<FixedRun<CAP>, LEVELS> {
    /// Puts the items of a list in, of which the LSM holds none, as `absorb` does with a run. It costs
    /// one copy of each item, of each block of a lesser level, and of each block that they become one
    /// with.
    pub fn absorb_items(&mut self, items: &[Item]) -> Result<(), LsmError>
        requires capacity { IsCapacity CAP }
        requires some { 0 < length items.now }
        requires ascending { IsAscending items.now }
        requires apart { ShareNone (content self.old) items.now }
        ensures added { OnOk result (self.new ≡ add self.old items.now) }
        ensures room { IsOk result
            ↔ (length (content self.old) + length items.now ≤ limit_of LEVELS CAP) }
        ensures full { IfErr result (λ why. why ≡ LsmError.Full) }
        ensures unchanged { OnErr result (self.new ≡ self.old) }
    {
        if items.len() > self.limit() - self.len {
            return Err(LsmError::Full);
        }
        let place = self.place_of_level(level_of(items.len()));
        put_at(&mut self.slots, place, self.count, items);
        let lesser = self.count - place;
        let slots = self.slots.as_mut_slice();
        let last = carry(slots, place);
        close_up(slots, place + 1, last + 1, lesser);
        self.count = last + 1 + lesser;
        self.len += items.len();
        Ok(())
    }
}

// Puts items into the slot of a place, and what is there and behind one slot on.
fn put_at<const CAP: usize, const LEVELS: usize>(
    slots: &mut ArrayVec<Option<FixedRun<CAP>>, LEVELS>,
    place: usize,
    count: usize,
    items: &[Item],
)
    requires capacity { IsCapacity CAP }
    requires order { place ≤ count }
    requires within { count ≤ array_vec_len slots.old }
    requires levels { count < LEVELS }
    requires ascending { IsAscending items.now }
    requires room { length items.now ≤ CAP }
    ensures blocks { take (count + 1) (blocks_in (λ run. run) slots.new.items)
        ≡ take place (blocks_in (λ run. run) slots.old.items)
        ++ items.now ∷ drop place (take count (blocks_in (λ run. run) slots.old.items)) }
    ensures within { count < array_vec_len slots.new }
{
    open_slot(slots, count);
    let runs = slots.as_mut_slice();
    open_up(runs, place, count);
    set_slot(&mut runs[place], items);
}

// Moves the runs from a place on, of `count` in all, one slot on.
fn open_up<R: Run>(slots: &mut [Option<R>], place: usize, count: usize)
    requires order { place ≤ count }
    requires within { count < length slots.old }
    ensures front { take place (blocks_in R.items slots.new)
        ≡ take place (blocks_in R.items slots.old) }
    ensures moved { take (count - place) (drop (place + 1) (blocks_in R.items slots.new))
        ≡ take (count - place) (drop place (blocks_in R.items slots.old)) }
    ensures len { length slots.new ≡ length slots.old }
{
    let mut gap = count;
    while gap > place {
        gap -= 1;
        move_on(slots, gap);
    }
}
