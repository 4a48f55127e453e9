//! The work that makes one run of two, in steps.
ghost use Rattle.std.specs.Prelude.{◌≡◌, ◌+◌, ◌≤◌, ◌++◌, length, min, IfSome};
ghost use Rattle.klsm_handoff.specs.Ends.{giver_terms};
ghost use Rattle.klsm_run.specs.Content.{sorted, IsAscending, ShareNone};
ghost use Rattle.klsm_run.specs.Capacity.{heap_room};
ghost use Rattle.klsm_union.specs.Halves.{owed_items};
ghost use Rattle.klsm_union.specs.Works.{united_items, united_room};

use crate::SharedRun;
use crate::halves::RunGiver;
use klsm_run::HeapRun;
use std::alloc::Allocator;
use std::marker::Model;
use std::sync::Arc;

/// What is left of two runs, what is united of them so far, and the end that gives their union. It may go to any thread.
#[derive(Drop)]
pub struct Work<A: Allocator + Copy> {
    left: SharedRun<A>,
    right: SharedRun<A>,
    // None before the first step.
    both: Option<HeapRun<A>>,
    giver: RunGiver<A>,
}

impl<A: Allocator + Copy> Model for Work<A> {
    ghost use Rattle.std.specs.Prelude.{ℕ, ◌+◌, length};
    ghost use Rattle.klsm_handoff.specs.Ends.{giver_terms};
    ghost use Rattle.klsm_union.specs.Halves.{owed_items};
    ghost use Rattle.klsm_union.specs.Works.{IsWork};

    // How many items are not united yet.
    ghost Value = { ℕ };

    ghost view = { λ work. length work.left + length work.right };

    ghost invariant = { λ work.
        IsWork work.both work.left work.right (owed_items (giver_terms work.giver)) };
}

impl<A: Allocator + Copy> Work<A> {
    /// The work of uniting two runs.
    pub(crate) fn new(left: SharedRun<A>, right: SharedRun<A>, giver: RunGiver<A>) -> Self
        requires owes { owed_items (giver_terms giver) ≡ sorted (left ++ right) }
        requires ascending { IsAscending (sorted (left ++ right)) }
        requires room { length left + length right ≤ heap_room }
        ensures { result ≡ length left + length right }
    {
        Work {
            left,
            right,
            both: None,
            giver,
        }
    }

    /// How many items are not united yet.
    #[inline]
    pub fn rest(&self) -> usize
        ensures { result ≡ self.now }
    {
        self.left.len() + self.right.len()
    }

    /// Unites `most` items more, at one comparison and one copy each, and gives the union if these are the last. The first
    /// step takes the memory for all of them. If memory is refused, nothing is ever given.
    pub fn carry_on(self, most: usize) -> Option<Self>
        ensures { IfSome result (λ work. work + most ≡ self) }
    {
        if most == 0 {
            return Some(self);
        }
        let Work {
            mut left,
            mut right,
            both,
            giver,
        } = self;
        let mut both = with_store(left.allocator(), both, left.len() + right.len())?;
        unite(&mut both, &mut left, &mut right, most);
        if left.len() + right.len() > 0 {
            return Some(Work {
                left,
                right,
                both: Some(both),
                giver,
            });
        }
        give(both, giver);
        None
    }

    /// Whether `carry_on_in_place` would unite any. No contract speaks of the answer.
    #[inline]
    pub fn is_under_way(&self) -> bool {
        self.both.is_some() && self.left.len() + self.right.len() > 0
    }

    /// Unites `most` items more, if a step before this has taken the memory for them. It takes none, and so gives nothing:
    /// that is left to `carry_on`.
    pub fn carry_on_in_place(self, most: usize) -> Self
        ensures { (result ≤ self) × (self ≤ result + most) }
    {
        let Work {
            mut left,
            mut right,
            both,
            giver,
        } = self;
        let Some(mut store) = both else {
            return Work {
                left,
                right,
                both: None,
                giver,
            };
        };
        unite(&mut store, &mut left, &mut right, most);
        Work {
            left,
            right,
            both: Some(store),
            giver,
        }
    }
}

// Unites `most` items more, or all that are left of the two runs.
fn unite<A: Allocator + Copy>(
    both: &mut HeapRun<A>,
    left: &mut SharedRun<A>,
    right: &mut SharedRun<A>,
    most: usize,
)
    requires ascending { IsAscending (both.old.items ++ sorted (left.old ++ right.old)) }
    requires room { length both.old.items + length left.old + length right.old ≤ both.old.capacity }
    ensures items { both.new.items ++ sorted (left.new ++ right.new)
        ≡ both.old.items ++ sorted (left.old ++ right.old) }
    ensures count { length left.new + length right.new
        + min most (length left.old + length right.old) ≡ length left.old + length right.old }
    ensures capacity { both.new.capacity ≡ both.old.capacity }
{
    let (lefts, rights) = both.append_least(left.as_slice(), right.as_slice(), most);
    left.remove_first(lefts);
    right.remove_first(rights);
}

// What is united so far, with a store for `count` items if it has none yet.
fn with_store<A: Allocator + Copy>(
    alloc: A,
    both: Option<HeapRun<A>>,
    count: usize,
) -> Option<HeapRun<A>>
    requires most { count ≤ heap_room }
    requires room { length (united_items both) + count ≤ united_room both }
    ensures items { IfSome result (λ run. run.items ≡ united_items both) }
    ensures room { IfSome result (λ run. length run.items + count ≤ run.capacity) }
{
    match both {
        Some(run) => Some(run),
        None => HeapRun::empty_for(alloc, count).ok(),
    }
}

// Gives the union, unless memory is refused.
fn give<A: Allocator + Copy>(both: HeapRun<A>, giver: RunGiver<A>)
    requires { both.items ≡ owed_items (giver_terms giver) }
{
    if let Ok(run) = Arc::new(both.allocator(), both) {
        giver.give(run);
    }
}
