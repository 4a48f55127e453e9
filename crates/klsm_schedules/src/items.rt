//! Lists of items, as steps and answers carry them.
ghost use Rattle.std.specs.Prelude.{◌≡◌, ◌↔◌, [], IsTrue, List, length};
ghost use Rattle.std.specs.Cmp.{partial_equiv_from_equiv};
ghost use Rattle.std.specs.Cmp.Lexicographic.{pointwise};
ghost use Rattle.std.proofs.lemmas.Cmp.{eq_by_cmp_equiv, lists_equiv};
ghost use Rattle.klsm_run.specs.declared.item.Item.{Item};
ghost use Rattle.klsm_run.specs.ItemOrder.{is_same};
ghost use Rattle.klsm_run.proofs.OrderLemmas.{item_total};

use klsm_run::Item;
use std::alloc::{Allocator, Global};
use std::fmt;
use std::marker::Model;

/// A list of items. Contracts see it as the list alone.
#[derive(Drop)]
pub struct Items<A: Allocator = Global> {
    items: Vec<Item, A>,
}

impl<A: Allocator> Model for Items<A> {
    ghost Value = { List Item };

    ghost view = { λ list. list.items.items };
}

impl<A: Allocator> Items<A> {
    /// The items of a vector, in its order.
    #[inline]
    pub fn new(items: Vec<Item, A>) -> Self
        ensures { result ≡ items.items }
    {
        Items { items }
    }

    /// The number of items.
    #[inline]
    pub fn len(&self) -> usize
        ensures { result ≡ length self.now }
    {
        self.items.len()
    }

    /// Whether there is none.
    #[inline]
    pub fn is_empty(&self) -> bool
        ensures { IsTrue result ↔ (self.now ≡ []) }
    {
        self.items.is_empty()
    }

    /// The items, in their order.
    #[inline]
    pub fn as_slice(&self) -> &[Item]
        ensures { result.now ≡ self.now }
    {
        self.items.as_slice()
    }
}

/// It prints as a vector does.
impl<A: Allocator> fmt::Debug for Items<A> {
    fn fmt<W: fmt::Write>(&self, f: &mut fmt::Formatter<W>) -> fmt::Result {
        f.debug_list().entries(self.as_slice()).finish()
    }
}

impl<A: Allocator> PartialEq for Items<A> {
    ghost eq = { pointwise is_same };

    ghost laws = { partial_equiv_from_equiv (lists_equiv (eq_by_cmp_equiv item_total)) };

    fn eq(&self, other: &Self) -> bool
        ensures computed { result ≡ pointwise is_same self.now other.now }
        ensures same { IsTrue result ↔ (self.now ≡ other.now) }
    {
        self.as_slice() == other.as_slice()
    }
}

impl<A: Allocator> Eq for Items<A> {
    ghost laws = { lists_equiv (eq_by_cmp_equiv item_total) };
}
