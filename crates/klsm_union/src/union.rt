//! Two runs that are to become one.
ghost use Rattle.std.specs.Prelude.{◌≡◌, ◌+◌, ◌≤◌, ◌++◌, length, drop, slice_get, IfOk, IfErr};
ghost use Rattle.klsm_run.specs.Capacity.{heap_room};
ghost use Rattle.klsm_run.specs.Content.{sorted, IsAscending, ShareNone};
ghost use Rattle.klsm_union.specs.Heads.{IsHead};

use crate::counting::{precedes, shares};
use crate::halves::{Halves, RunTaker, UnionBlank};
use crate::{SharedRun, Spent, Work};
use klsm_handoff::Known;
use klsm_run::{Item, Run};
use std::alloc::Allocator;
use std::marker::Model;

/// Two runs of which a worker has copies to read, and the end that takes their union.
#[derive(Drop)]
pub struct Union<A: Allocator + Copy> {
    left: SharedRun<A>,
    right: SharedRun<A>,
    taker: RunTaker<A>,
}

impl<A: Allocator + Copy> Model for Union<A> {
    ghost use Rattle.std.specs.Prelude.{List, ◌++◌};
    ghost use Rattle.klsm_run.specs.Content.{sorted};
    ghost use Rattle.klsm_run.specs.declared.item.Item.{Item};
    ghost use Rattle.klsm_handoff.specs.Ends.{taker_terms};
    ghost use Rattle.klsm_union.specs.Halves.{owed_items};
    ghost use Rattle.klsm_union.specs.Unions.{IsUnion};

    ghost Value = { List Item };

    ghost view = { λ union. sorted (union.left ++ union.right) };

    ghost invariant = { λ union.
        IsUnion union.left union.right (owed_items (taker_terms union.taker)) };
}

impl<A: Allocator + Copy> Union<A> {
    /// The union of two runs, and the work that makes one of them. It takes no memory. If there are too many owners of
    /// a run, the two come back.
    pub fn begin(
        left: SharedRun<A>,
        right: SharedRun<A>,
        blank: UnionBlank<A>,
    ) -> Result<(Self, Work<A>), (SharedRun<A>, SharedRun<A>)>
        requires apart { ShareNone left right }
        requires room { length left + length right ≤ heap_room }
        ensures union { IfOk result (λ begun. begun.0 ≡ sorted (left ++ right)) }
        ensures work { IfOk result (λ begun. begun.1 ≡ length left + length right) }
        ensures back { IfErr result (λ back. (back.0 ≡ left) × (back.1 ≡ right)) }
    {
        let Ok(left_copy) = left.try_clone() else {
            return Err((left, right));
        };
        let Ok(right_copy) = right.try_clone() else {
            return Err((left, right));
        };
        let halves = Halves {
            left: Known::of(&left),
            right: Known::of(&right),
        };
        let (giver, taker) = blank.agree(&halves);
        let work = Work::new(left_copy, right_copy, giver);
        Ok((Union { left, right, taker }, work))
    }

    /// The number of items.
    #[inline]
    pub fn len(&self) -> usize
        ensures len { result ≡ length self.now }
        ensures room { length self.now ≤ heap_room }
    {
        self.left.len() + self.right.len()
    }

    /// The least item, if there is one.
    pub fn first(&self) -> Option<Item>
        ensures first { result ≡ slice_get self.now 0 }
        ensures ascending { IsAscending self.now }
    {
        self.head().0.first().copied()
    }

    /// The run that begins with the least item, and the first item of the other one. As far as the items of that run
    /// come before that item, they are the first of all.
    pub fn head(&self) -> (&[Item], Option<Item>)
        ensures head { IsHead result.0.now result.1 self.now }
        ensures ascending { (IsAscending result.0.now) × IsAscending self.now }
    {
        if precedes(self.left.as_slice(), self.right.as_slice()) {
            (self.left.as_slice(), self.right.first())
        } else {
            (self.right.as_slice(), self.left.first())
        }
    }

    /// The items of the two runs.
    pub fn both(&self) -> (&[Item], &[Item])
        ensures items { sorted (result.0.now ++ result.1.now) ≡ self.now }
        ensures ascending { (IsAscending result.0.now) × IsAscending result.1.now }
    {
        (self.left.as_slice(), self.right.as_slice())
    }

    /// The least items leave, so many of them. No item moves. It costs two comparisons if all are of one run, as the
    /// first of `head` are.
    pub fn remove_first(&mut self, count: usize)
        requires { count ≤ length self.old }
        ensures { self.new ≡ drop count self.old }
    {
        let (lefts, rights) = shares(self.left.as_slice(), self.right.as_slice(), count);
        self.left.remove_first(lefts);
        self.right.remove_first(rights);
    }

    /// The one run, if the worker gave it, less the items that have left meanwhile, and what may be freed; else the
    /// union as it was.
    pub fn collect(self) -> Result<(SharedRun<A>, Spent<A>), Self>
        ensures items { IfOk result (λ collected. collected.0 ≡ self) }
        ensures same { IfErr result (λ union. union ≡ self) }
    {
        let Union {
            left,
            right,
            mut taker,
        } = self;
        let Some(run) = taker.try_take() else {
            return Err(Union { left, right, taker });
        };
        let start = run.len() - (left.len() + right.len());
        Ok((
            SharedRun::starting_at(run, start),
            Spent { left, right, taker },
        ))
    }

    /// Whether the worker is gone. What it gave is there by then, so one more `collect` is the last that may find a
    /// run. No contract speaks of the answer.
    pub fn is_given_up(&mut self) -> bool
        ensures { self.new ≡ self.old }
    {
        self.taker.is_given_up()
    }

    /// The two runs, less what has left. What the worker gives from now on is lost.
    pub fn split(self) -> (SharedRun<A>, SharedRun<A>)
        ensures items { sorted (result.0 ++ result.1) ≡ self }
        ensures apart { ShareNone result.0 result.1 }
        ensures room { length result.0 + length result.1 ≤ heap_room }
    {
        let Union {
            left,
            right,
            taker: _,
        } = self;
        (left, right)
    }
}
