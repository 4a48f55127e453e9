//! Queues of keys, and comparisons of items.
ghost use Rattle.std.specs.Prelude.{◌≤◌};

use klsm_parts::Queue;
use klsm_run::Item;
use std::alloc::Global;

/// A queue at this k with the items of these keys, inserted in turn.
pub(crate) fn queue_of(alloc: Global, k: usize, keys: &[u64]) -> Option<Queue<64, 21>>
    requires { k ≤ 64 }
{
    let mut queue = Queue::new(alloc, k);
    for key in keys {
        queue.insert(*key, 0).ok()?;
    }
    Some(queue)
}

/// Whether both are the same item, or none. A comparison takes longer to prove than a call.
pub(crate) fn same_item(item: Option<Item>, other: Option<Item>) -> bool {
    item == other
}

/// Whether both are the same items.
pub(crate) fn same_items(items: &[Item], others: &[Item]) -> bool {
    items == others
}
