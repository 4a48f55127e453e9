//! What a member does for the unions of the shared part while it has no lock on that.
ghost use Rattle.std.specs.Prelude.{◌≡◌, IfSome};
ghost use Rattle.klsm_run.specs.Capacity.{IsCapacity};
ghost use Rattle.klsm_parts.specs.Flushing.{IsLargest};
ghost use Rattle.klsm_parts.specs.Parts.{items_in};

use crate::{Local, Shared, copy_to_move, copy_to_share};
use klsm_union::{SharedRun, Spent, UnionBlank, Work};
use std::alloc::{Allocator, Global};
use std::marker::Model;

// How many items a member unites at each of its calls, at most. With more a call is longer, and with fewer a union comes
// later.
const STEP: usize = 256;

/// The union that a member carries out, what it needs to begin the next one, and what it will free.
///
/// Two large blocks of the shared part that become one stay two pieces there, until some member has united copies of
/// them. So nothing large is written while the shared part is held.
pub struct Unions<A: Allocator + Copy = Global> {
    alloc: A,
    work: Option<Work<A>>,
    blank: Option<UnionBlank<A>>,
    spent: Option<Spent<A>>,
}

// Not compiled into the drop of what it lies beside: there a whole part would be moved over the stack.
impl<A: Allocator + Copy> Drop for Unions<A> {
    #[inline(never)]
    fn drop(self) {
        let Unions {
            alloc: _,
            work: _work,
            blank: _blank,
            spent: _spent,
        } = self;
    }
}

// No clause asks what a union has come to.
impl<A: Allocator + Copy> Model for Unions<A> {
    ghost Value = { Unit {0} };

    ghost view = { λ _. tt };
}

impl<A: Allocator + Copy> Unions<A> {
    /// A member's, who has nothing to do yet. `alloc` is what unions will take memory from.
    pub fn new(alloc: A) -> Self {
        Unions {
            alloc,
            work: None,
            blank: None,
            spent: None,
        }
    }

    /// Carries the union on by one step, and takes and frees the memory that `exchange` would else, before the shared part
    /// is acquired. If memory is refused, no union is handed out.
    pub fn prepare(&mut self) {
        self.step();
        if self.blank.is_none() {
            self.blank = UnionBlank::new(self.alloc).ok();
        }
    }

    /// A copy of the block that the next flush of an own part moves, if there is one and memory for it.
    pub fn copy_of<const CAP: usize>(&self, own: &Local<CAP>) -> Option<SharedRun<A>>
        requires capacity { IsCapacity CAP }
        ensures { IfSome result (λ run. IsLargest run own.now.blocks) }
    {
        copy_to_move(own, self.alloc)
    }

    /// A copy of all items of an own part, which its next sharing moves, if there are some and memory for it.
    pub fn copy_of_all<const CAP: usize>(&self, own: &Local<CAP>) -> Option<SharedRun<A>>
        requires capacity { IsCapacity CAP }
        ensures { IfSome result (λ run. run ≡ items_in own.now) }
    {
        copy_to_share(own, self.alloc)
    }

    /// Takes over a union that some member has handed in, and hands this one the next, if there are two pieces that are
    /// worth it and it has none. The shared part has what it had. It takes no memory.
    pub fn exchange<const LEVELS: usize>(&mut self, shared: &mut Shared<LEVELS, A>)
        ensures { shared.new ≡ shared.old }
    {
        collect(&mut self.spent, shared);
        hand_out(&mut self.work, &mut self.blank, shared);
    }

    /// Carries the union on by one step, and hands it in after the last one. It needs no part, and may take memory.
    #[inline]
    pub fn carry_on(&mut self) {
        if self.work.is_some() || self.spent.is_some() {
            self.step();
        }
    }

    /// Carries the union on by one step, as far as that takes no memory. It needs no part.
    #[inline]
    pub fn carry_on_in_place(&mut self) {
        if let Some(work) = &self.work {
            if work.is_under_way() {
                self.step_in_place();
            }
        }
    }

    #[inline(never)]
    fn step(&mut self) {
        self.spent = None;
        if let Some(work) = self.work.take() {
            self.work = work.carry_on(STEP);
        }
    }

    #[inline(never)]
    fn step_in_place(&mut self) {
        if let Some(work) = self.work.take() {
            self.work = Some(work.carry_on_in_place(STEP));
        }
    }
}

// Takes over a union that was handed in, unless there is still one to free.
fn collect<const LEVELS: usize, A: Allocator + Copy>(
    spent: &mut Option<Spent<A>>,
    shared: &mut Shared<LEVELS, A>,
)
    ensures { shared.new ≡ shared.old }
{
    if spent.is_none() {
        *spent = shared.collect();
    }
}

// Hands out a union to who carries out none and has a blank for it.
fn hand_out<const LEVELS: usize, A: Allocator + Copy>(
    work: &mut Option<Work<A>>,
    blank: &mut Option<UnionBlank<A>>,
    shared: &mut Shared<LEVELS, A>,
)
    ensures { shared.new ≡ shared.old }
{
    if work.is_some() {
        return;
    }
    let Some(blank_now) = blank.take() else {
        return;
    };
    match shared.hand_out(blank_now) {
        Ok(begun) => *work = Some(begun),
        Err(back) => *blank = back,
    }
}
