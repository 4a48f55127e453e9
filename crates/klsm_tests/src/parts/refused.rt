//! Each growth of a flush refused in turn: nothing changes, and the same call goes through once it gets them.

use super::both::{Both, are_same, both_at, insert_all, item};
use klsm_lsm::LsmError;
use klsm_test_support::Rationed;

// The insertion of 7 flushes at k = 2: a block of 2 items becomes one with one of 2 and one of 4.
fn flush_needs_some(both: &mut Both) -> Option<bool> {
    insert_all(both, &[5, 1, 4, 2, 3, 9, 8, 6])?;
    let before = both.plain.shared.len();
    let next = item(7, both.queue.inserted());
    for grants in 0..10 {
        both.heap.allow(grants);
        let answer = both.queue.insert(7, 0);
        if answer == Ok(next) {
            both.plain.insert(next).ok()?;
            let after = both.plain.shared.len();
            let is_same = are_same(&both.queue, &both.plain)?;
            return Some(is_same && grants > 0 && (before, after) == (2, 1));
        }
        if answer != Err(LsmError::NoMemory) || !are_same(&both.queue, &both.plain)? {
            return None;
        }
    }
    None
}

#[test]
fn flush_refused(rt: HostRuntime) {
    let heap = Rationed::new(rt.alloc());
    let mut both = both_at(rt.alloc(), &heap, 2);
    assert!(rt; flush_needs_some(&mut both) == Some(true));
}
