//! The pieces of a pile.
ghost use Rattle.std.specs.Prelude.{◌≡◌, ◌+◌, ◌≤◌, ◌++◌, length, drop, slice_get, IfSome, IfNone, OnOk, IfErr, OnErr};
ghost use Rattle.klsm_run.specs.Capacity.{heap_room};
ghost use Rattle.klsm_run.specs.Content.{sorted, IsAscending, ShareNone};
ghost use Rattle.klsm_union.specs.Heads.{IsHead};

use crate::body::{Body, collected, first_item, halved, merged, united};
use klsm_run::Item;
use klsm_union::{SharedRun, Spent, UnionBlank, Work};
use std::alloc::Allocator;
use std::marker::Model;
use std::mem;

/// A run, or two that become one, with the level of the block that they are a part of.
#[derive(Drop)]
pub struct Piece<A: Allocator + Copy> {
    body: Body<A>,
    level: usize,
    // The least item lies here as well, so that to compare two pieces reads no run.
    first: Option<Item>,
}

impl<A: Allocator + Copy> Model for Piece<A> {
    ghost use Rattle.klsm_pile.specs.Body.{body_items, IsFirst};
    ghost use Rattle.klsm_pile.specs.Piece.{PieceState};

    ghost Value = { PieceState };

    ghost view = { λ piece. record { items = body_items piece.body; level = piece.level } };

    ghost invariant = { λ piece. IsFirst piece.first (body_items piece.body) };
}

impl<A: Allocator + Copy> Piece<A> {
    /// A run as a piece of a block of this level.
    #[inline]
    pub(crate) fn new(run: SharedRun<A>, level: usize) -> Self
        ensures { result ≡ record { items = run; level = level } }
    {
        let body = Body::One(run);
        let first = first_item(&body);
        Piece { body, level, first }
    }

    /// The level of its block.
    #[inline]
    pub(crate) fn level(&self) -> usize
        ensures { result ≡ self.now.level }
    {
        self.level
    }

    /// Its block is of another level from now on.
    #[inline]
    pub(crate) fn set_level(&mut self, level: usize)
        ensures { self.new ≡ record { items = self.old.items; level = level } }
    {
        self.level = level;
    }

    /// Whether it is one run. No contract speaks of the answer.
    pub(crate) fn is_one(&self) -> bool {
        matches!(&self.body, Body::One(_))
    }

    /// The number of items.
    #[inline]
    pub(crate) fn len(&self) -> usize
        ensures len { result ≡ length self.now.items }
        ensures room { length self.now.items ≤ heap_room }
    {
        match &self.body {
            Body::One(run) => run.len(),
            Body::Two(union) => union.len(),
            Body::Gone => 0,
        }
    }

    /// The least item, if there is one.
    #[inline]
    pub(crate) fn first(&self) -> Option<Item>
        ensures first { result ≡ slice_get self.now.items 0 }
        ensures ascending { IsAscending self.now.items }
    {
        self.first
    }

    /// The run that begins with the least item, and the first item of the other one, if there are two. As far as the
    /// items of that run come before that item, they are the first of all.
    pub(crate) fn head(&self) -> (&[Item], Option<Item>)
        ensures head { IsHead result.0.now result.1 self.now.items }
        ensures ascending { IsAscending self.now.items }
    {
        match &self.body {
            Body::One(run) => (run.as_slice(), None),
            Body::Two(union) => union.head(),
            Body::Gone => (&[], None),
        }
    }

    /// The items of both runs. If there is one, the second has none.
    pub(crate) fn slices(&self) -> (&[Item], &[Item])
        ensures items { sorted (result.0.now ++ result.1.now) ≡ self.now.items }
        ensures ascending { (IsAscending result.0.now) × IsAscending result.1.now }
    {
        match &self.body {
            Body::One(run) => (run.as_slice(), &[]),
            Body::Two(union) => union.both(),
            Body::Gone => (&[], &[]),
        }
    }

    /// The least items leave, so many of them. No item moves.
    #[inline]
    pub(crate) fn remove_first(&mut self, count: usize)
        requires { count ≤ length self.old.items }
        ensures { self.new
            ≡ record { items = drop count self.old.items; level = self.old.level } }
    {
        match &mut self.body {
            Body::One(run) => run.remove_first(count),
            Body::Two(union) => union.remove_first(count),
            Body::Gone => {}
        }
        self.first = first_item(&self.body);
    }

    /// The items of two pieces of one run each as one run and one piece of this one's level, if there is memory for it.
    pub(crate) fn merge(&self, other: &Self, alloc: A) -> Option<Self>
        requires apart { ShareNone self.now.items other.now.items }
        requires room { length self.now.items + length other.now.items ≤ heap_room }
        ensures { IfSome result (λ both. both ≡ record {
          items = sorted (self.now.items ++ other.now.items);
          level = self.now.level;
        }) }
    {
        let (Body::One(left), Body::One(right)) = (&self.body, &other.body) else {
            return None;
        };
        let both = merged(left, right, alloc)?;
        Some(Piece::new(both, self.level))
    }

    /// This piece takes another one of its block in, and is a union from then on: the work that makes it one run. If
    /// one of them is a union already, or if a run has too many owners, the other one comes back.
    pub(crate) fn unite(&mut self, other: Self, blank: UnionBlank<A>) -> Result<Work<A>, Self>
        requires apart { ShareNone self.old.items other.items }
        requires room { length self.old.items + length other.items ≤ heap_room }
        ensures union { OnOk result (self.new ≡ record {
          items = sorted (self.old.items ++ other.items);
          level = self.old.level;
        }) }
        ensures same { OnErr result (self.new ≡ self.old) }
        ensures back { IfErr result (λ back. back ≡ other) }
    {
        let Piece { body, level, first } = other;
        let (both, work) = united(mem::replace(&mut self.body, Body::Gone), body, blank);
        self.body = both;
        self.first = first_item(&self.body);
        match work {
            Ok(work) => Ok(work),
            Err(body) => Err(Piece { body, level, first }),
        }
    }

    /// It becomes one run if it is a union that was handed in: what may be freed then.
    pub(crate) fn collect(&mut self) -> Option<Spent<A>>
        ensures { self.new ≡ self.old }
    {
        let (body, spent) = collected(mem::replace(&mut self.body, Body::Gone));
        self.body = body;
        spent
    }

    /// Whether it is a union whose worker is gone. What that gave is there by then, so one more `collect` is the last
    /// that may find it. No contract speaks of the answer.
    pub(crate) fn is_given_up(&mut self) -> bool
        ensures { self.new ≡ self.old }
    {
        match &mut self.body {
            Body::Two(union) => union.is_given_up(),
            _ => false,
        }
    }

    /// It keeps one of its two runs, and the other one is a piece of the same block.
    pub(crate) fn split(&mut self) -> Option<Self>
        ensures two { IfSome result (λ other. (sorted (self.new.items ++ other.items) ≡ self.old.items)
            × (other.level ≡ self.old.level)) }
        ensures one { IfNone result (self.new ≡ self.old) }
        ensures level { self.new.level ≡ self.old.level }
    {
        let (body, run) = halved(mem::replace(&mut self.body, Body::Gone));
        self.body = body;
        self.first = first_item(&self.body);
        Some(Piece::new(run?, self.level))
    }
}
