//! Whether an own part and a shared one share no item, and whether an item is in neither. Calls on both parts need it,
//! and a test that has two parts finds it out.
ghost use Rattle.std.specs.Prelude.{◌≡◌, false, IfSome, IsTrue};
ghost use Rattle.std.specs.List.{Contains};
ghost use Rattle.klsm_run.specs.Content.{ShareNone};
ghost use Rattle.klsm_lsm.specs.Lsm.{content};

use klsm_parts::{Local, Shared};
use klsm_run::Item;
use std::alloc::{Allocator, Global};

/// Whether no item is in both parts. `None` if memory is refused.
pub fn are_apart<const LEVELS: usize, A: Allocator + Copy>(
    alloc: Global,
    own: &Local<64>,
    shared: &Shared<LEVELS, A>,
) -> Option<bool>
    ensures { IfSome result (λ apart.
        IsTrue apart → ShareNone (content own.now.blocks) (content shared.now.blocks)) }
{
    let items = own_items(alloc, own)?;
    let others = shared_items(alloc, shared)?;
    Some(share_none(items.as_slice(), others.as_slice()))
}

/// Whether an item is in one of the parts. `None` if memory is refused.
pub fn is_in<const LEVELS: usize, A: Allocator + Copy>(
    alloc: Global,
    own: &Local<64>,
    shared: &Shared<LEVELS, A>,
    item: Item,
) -> Option<bool>
    ensures { IfSome result (λ is_in. is_in ≡ false
        → ¬ Contains (content own.now.blocks) item × ¬ Contains (content shared.now.blocks) item) }
{
    let items = own_items(alloc, own)?;
    let others = shared_items(alloc, shared)?;
    Some(is_in_either(items.as_slice(), others.as_slice(), &item))
}

// The items of an own part, block after block.
fn own_items(alloc: Global, own: &Local<64>) -> Option<Vec<Item>>
    ensures { IfSome result (λ items. items.items ≡ content own.now.blocks) }
{
    let mut items = Vec::new(alloc);
    own.append_to(&mut items).ok()?;
    Some(items)
}

// The items of a shared part, block after block.
fn shared_items<const LEVELS: usize, A: Allocator + Copy>(
    alloc: Global,
    shared: &Shared<LEVELS, A>,
) -> Option<Vec<Item>>
    ensures { IfSome result (λ items. items.items ≡ content shared.now.blocks) }
{
    let mut items = Vec::new(alloc);
    let Ok(()) = shared.append_to(&mut items) else {
        return None;
    };
    Some(items)
}

// Whether no item is in both lists.
fn share_none(items: &[Item], others: &[Item]) -> bool
    ensures { IsTrue result → ShareNone items.now others.now }
{
    for item in items {
        if has(others, item) {
            return false;
        }
    }
    true
}

// Whether an item is in one of two lists.
fn is_in_either(items: &[Item], others: &[Item], item: &Item) -> bool
    ensures { result ≡ false → ¬ Contains items.now item.now × ¬ Contains others.now item.now }
{
    if has(items, item) {
        return true;
    }
    has(others, item)
}

// Whether an item is in a list.
fn has(items: &[Item], item: &Item) -> bool
    ensures { result ≡ false → ¬ Contains items.now item.now }
{
    items.contains(item)
}
