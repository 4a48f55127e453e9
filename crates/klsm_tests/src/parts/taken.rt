//! An own part and a shared one, from which items are taken for several owners and by pickers, and
//! the plain program, which take the same steps.
ghost use Rattle.std.specs.Prelude.{◌≡◌, ◌≤◌, false, IfSome, IsTrue};
ghost use Rattle.std.specs.List.{Contains};
ghost use Rattle.klsm_run.specs.Content.{ShareNone};
ghost use Rattle.klsm_lsm.specs.Lsm.{content};

use super::both::{RationedShared, show_same};
use super::plain::Plain;
use crate::rules::Pick;
use klsm_parts::{Local, Picker, Shared, flush, put, take, take_least};
use klsm_run::Item;
use klsm_test_support::{Rationed, are_apart, is_in};
use std::alloc::Global;

/// The two parts, and the plain program.
#[derive(Drop)]
pub(super) struct Parts<'a> {
    alloc: Global,
    own: Local<64>,
    pub shared: RationedShared<'a>,
    pub plain: Plain,
}

/// Parts at this k, with no item.
pub(super) fn parts_at<'a>(alloc: Global, heap: &'a Rationed<Global>, k: usize) -> Parts<'a>
    requires { k ≤ 64 }
{
    Parts {
        alloc,
        own: Local::new(k),
        shared: Shared::new(heap, k),
        plain: Plain::new(alloc, k),
    }
}

impl<'a> Parts<'a> {
    /// Puts an item into both, or flushes. `None` where they then differ.
    pub(super) fn insert(&mut self, item: Item) -> Option<()> {
        self.plain.insert(item).ok()?;
        join(self.alloc, &mut self.own, &mut self.shared, item)?;
        self.are_same()?.then_some(())
    }

    /// Takes an item out of both for an owner, if there is one, by a picker that has to pick so.
    /// `None` where they then differ.
    pub(super) fn take<P: Picker>(
        &mut self,
        owner: u32,
        picker: &mut P,
        pick: Pick,
    ) -> Option<Option<Item>> {
        let want = self.plain.take(owner, pick).ok()?;
        let answer = take_for(self.alloc, owner, &mut self.own, &mut self.shared, picker)?;
        (answer == want && self.are_same()?).then_some(answer)
    }

    /// Takes the least own item out of both, if there is one. `None` where they then differ.
    pub(super) fn take_least(&mut self) -> Option<Option<Item>> {
        let want = self.plain.take_least().ok()?;
        let answer = least_taken(&mut self.own);
        (answer == want && self.are_same()?).then_some(answer)
    }

    /// The least own item, and whether a search for it that the next call remembers finds it too.
    pub(super) fn find_least(&mut self) -> Option<Option<Item>> {
        let least = self.own.least();
        (self.own.find_least() == least && self.plain.least_own().ok()? == least).then_some(least)
    }

    // Whether both show the same blocks, pivots and candidates.
    fn are_same(&self) -> Option<bool> {
        show_same(&self.own, &self.shared, &self.plain)
    }
}

// Takes the least item out, if there is one.
fn least_taken(own: &mut Local<64>) -> Option<Item> {
    if own.len() == 0 {
        return None;
    }
    Some(take_least(own))
}

// Puts an item in, or flushes. `None` where it is in one of the parts.
fn join(alloc: Global, own: &mut Local<64>, shared: &mut RationedShared, item: Item) -> Option<()> {
    if !are_apart(alloc, own, shared)? || is_in(alloc, own, shared, item)? {
        return None;
    }
    if own.len() < own.k() {
        put(own, item);
        return Some(());
    }
    flush(own, shared, item).ok()
}

// Takes an item out of two parts of one k, if there is one.
fn take_for<P: Picker>(
    alloc: Global,
    owner: u32,
    own: &mut Local<64>,
    shared: &mut RationedShared,
    picker: &mut P,
) -> Option<Option<Item>> {
    if own.k() != shared.k() || !are_apart(alloc, own, shared)? {
        return None;
    }
    Some(take(owner, own, shared, picker))
}
