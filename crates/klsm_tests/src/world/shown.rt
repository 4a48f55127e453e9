//! What a step prints.

use super::steps::{Moved, Row, step_of};
use crate::printed::prints;
use std::alloc::Global;

const FLUSH: &str = "Commit { thread: 0, event: Flush { \
    item: Item { key: 3, stamp: Stamp { owner: 0, number: 1 }, load: 0 }, \
    moved: [Item { key: 2, stamp: Stamp { owner: 0, number: 0 }, load: 0 }] } }";

fn flush_prints(alloc: Global) -> Option<bool> {
    let flush = Row::Flush(0, (3, 0, 1), Moved::One((2, 0, 0)));
    let step = step_of(alloc, flush)?;
    prints(alloc, &step, FLUSH)
}

#[test]
fn printed(rt: HostRuntime) {
    assert!(rt; flush_prints(rt.alloc()) == Some(true));
}
