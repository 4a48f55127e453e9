//! What runs, LSMs, parts and worlds print, and the texts of refusals.

use super::queues::queue_of;
use klsm_lsm::{LsmError, Refused};
use klsm_parts::{Local, Shared};
use klsm_run::RunError;
use klsm_test_support::{heap_run_of, run_of};
use klsm_world::{StepError, World, WorldError};
use std::alloc::Global;
use std::fmt::{Debug, Display};

/// Whether a value prints so.
pub(crate) fn prints<T: Debug>(alloc: Global, value: &T, want: &str) -> Option<bool> {
    let text = format!(in alloc; "{value:?}").ok()?;
    Some(text.as_str() == want)
}

// Whether the text of an error is this.
fn says<T: Display>(alloc: Global, error: &T, want: &str) -> Option<bool> {
    let text = format!(in alloc; "{error}").ok()?;
    Some(text.as_str() == want)
}

// Whether the runs of these keys print so, in either store.
fn runs_print(alloc: Global, keys: &[u64], want: &str) -> Option<bool> {
    if keys.len() > 64 {
        return None;
    }
    let fixed = prints(alloc, &run_of(0, keys), want)?;
    let on_heap = prints(alloc, &heap_run_of(alloc, 0, keys)?, want)?;
    Some(fixed && on_heap)
}

#[test]
fn runs(rt: HostRuntime) {
    let alloc = rt.alloc();
    let two = "[Item { key: 1, stamp: Stamp { owner: 0, number: 1 }, load: 0 }, \
        Item { key: 2, stamp: Stamp { owner: 0, number: 0 }, load: 0 }]";
    assert!(rt; runs_print(alloc, &[], "[]") == Some(true));
    assert!(rt; runs_print(alloc, &[2, 1], two) == Some(true));
    assert!(rt; says(alloc, &RunError::NoMemory, "out of memory") == Some(true));
}

// Whether the own LSM of a queue prints so that has these keys, inserted in turn.
fn lsm_prints(alloc: Global, keys: &[u64], want: &str) -> Option<bool> {
    prints(alloc, queue_of(alloc, 64, keys)?.own().lsm(), want)
}

// Whether an empty run that was refused prints so, and its text is this.
fn refused_prints(alloc: Global, why: LsmError, want: &str, text: &str) -> Option<bool> {
    let refused = Refused {
        why,
        run: run_of(0, &[]),
    };
    Some(prints(alloc, &refused, want)? && says(alloc, &refused, text)? && says(alloc, &why, text)?)
}

#[test]
fn lsms(rt: HostRuntime) {
    let alloc = rt.alloc();
    let two = "[[Item { key: 1, stamp: Stamp { owner: 0, number: 1 }, load: 0 }, \
        Item { key: 2, stamp: Stamp { owner: 0, number: 0 }, load: 0 }], \
        [Item { key: 3, stamp: Stamp { owner: 0, number: 2 }, load: 0 }]]";
    assert!(rt; lsm_prints(alloc, &[], "[]") == Some(true));
    assert!(rt; lsm_prints(alloc, &[2, 1, 3], two) == Some(true));
    for (why, want, text) in [
        (
            LsmError::Full,
            "Refused { why: Full, run: [] }",
            "the LSM is full",
        ),
        (
            LsmError::NoMemory,
            "Refused { why: NoMemory, run: [] }",
            "out of memory",
        ),
    ] {
        assert!(rt; refused_prints(alloc, why, want, text) == Some(true));
    }
}

// Whether parts with no item print so.
fn parts_print(alloc: Global, k: usize, own: &str, shared: &str) -> Option<bool> {
    if k > 64 {
        return None;
    }
    let empty_own: Local<64> = Local::new(k);
    let empty_shared: Shared<21> = Shared::new(alloc, k);
    Some(prints(alloc, &empty_own, own)? && prints(alloc, &empty_shared, shared)?)
}

// Whether a queue at k = 1 prints so that has key 1 in its shared part and key 2 in its own.
fn queue_prints(alloc: Global, want: &str) -> Option<bool> {
    prints(alloc, &queue_of(alloc, 1, &[1, 2])?, want)
}

#[test]
fn parts(rt: HostRuntime) {
    let alloc = rt.alloc();
    let two = "Queue { own: Local { k: 1, \
        lsm: [[Item { key: 2, stamp: Stamp { owner: 0, number: 1 }, load: 0 }]] }, \
        shared: Shared { k: 1, \
        lsm: [[Item { key: 1, stamp: Stamp { owner: 0, number: 0 }, load: 0 }]] }, inserted: 2 }";
    let own = "Local { k: 3, lsm: [] }";
    let shared = "Shared { k: 3, lsm: [] }";
    assert!(rt; parts_print(alloc, 3, own, shared) == Some(true));
    assert!(rt; queue_prints(alloc, two) == Some(true));
}

// Whether a new world of one thread prints so.
fn world_prints(alloc: Global, want: &str) -> Option<bool> {
    prints(alloc, &World::new(alloc, 1, 3).ok()?, want)
}

#[test]
fn worlds(rt: HostRuntime) {
    let alloc = rt.alloc();
    let new = "World { threads: 1, k: 3, words: [0, 0], contents: [[], []], .. }";
    let held = WorldError::At(3, StepError::Held(2));
    assert!(rt; world_prints(alloc, new) == Some(true));
    assert!(rt; says(alloc, &held, "step 3: the part is held by thread 2") == Some(true));
}
