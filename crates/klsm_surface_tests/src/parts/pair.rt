//! An own part and a shared one with the same k. The calls on both need parts that share no item, and an item that is
//! in neither, so the helpers check that first.
ghost use Rattle.std.specs.Prelude.{◌≡◌, ◌≤◌, false, IfSome, IsTrue};
ghost use Rattle.std.specs.List.{Contains};
ghost use Rattle.klsm_run.specs.Content.{ShareNone};
ghost use Rattle.klsm_lsm.specs.Lsm.{content};

use klsm_lsm::LsmError;
use klsm_parts::{Local, Picker, Shared, flush, put, take, take_least};
use klsm_run::Item;
use klsm_test_support::{are_apart, is_in};
use std::alloc::Global;

/// The two parts.
#[derive(Drop)]
pub(super) struct Pair {
    pub alloc: Global,
    pub own: Local<64>,
    pub shared: Shared<21>,
}

/// Parts at this k, with no item.
pub(super) fn pair_at(alloc: Global, k: usize) -> Pair
    requires { k ≤ 64 }
{
    Pair {
        alloc,
        own: Local::new(k),
        shared: Shared::new(alloc, k),
    }
}

impl Pair {
    /// Puts an item into the own part if that has room, or else flushes. `None` if a part has the item already, or if
    /// the flush is refused.
    pub(super) fn insert(&mut self, item: Item) -> Option<()> {
        join(self.alloc, &mut self.own, &mut self.shared, item)
    }

    /// Takes an item for an owner, if there is one.
    pub(super) fn take<P: Picker>(&mut self, owner: u32, picker: &mut P) -> Option<Option<Item>> {
        take_for(self.alloc, owner, &mut self.own, &mut self.shared, picker)
    }

    /// Takes the least own item, if there is one.
    pub(super) fn take_least(&mut self) -> Option<Item> {
        if self.own.len() == 0 {
            return None;
        }
        Some(take_least(&mut self.own))
    }
}

// Puts an item in, or flushes. `None` if a part has it already.
fn join(alloc: Global, own: &mut Local<64>, shared: &mut Shared<21>, item: Item) -> Option<()> {
    if !are_apart(alloc, own, shared)? || is_in(alloc, own, shared, item)? {
        return None;
    }
    if own.len() < own.k() {
        put(own, item);
        return Some(());
    }
    let answer: Result<(), LsmError> = flush(own, shared, item);
    answer.ok()
}

// Takes an item from two parts with the same k, if there is one.
fn take_for<P: Picker>(
    alloc: Global,
    owner: u32,
    own: &mut Local<64>,
    shared: &mut Shared<21>,
    picker: &mut P,
) -> Option<Option<Item>> {
    if own.k() != shared.k() || !are_apart(alloc, own, shared)? {
        return None;
    }
    Some(take(owner, own, shared, picker))
}
