//! The two that are measured side by side.
ghost use Rattle.std.specs.Prelude.{◌≤◌};
ghost use Rattle.klsm_bench.specs.declared.contenders.TheConstants.{GREATEST_K};

use crate::contenders::{GREATEST_K, Heap};
use klsm_parts::Queue;
use std::alloc::Global;

/// A heap and a queue.
#[derive(Drop)]
pub(crate) struct Pair {
    pub(crate) heap: Heap,
    pub(crate) queue: Queue<GREATEST_K, 21>,
}

impl Pair {
    /// A heap, and a queue of this k, both with no item.
    pub(crate) fn new(alloc: Global, k: usize) -> Self
        requires { k ≤ GREATEST_K }
    {
        Pair {
            heap: Heap::new(alloc),
            queue: Queue::new(alloc, k),
        }
    }
}
