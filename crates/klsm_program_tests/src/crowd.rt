//! A gate at which so many workers meet, each of which comes once, so that a test sees all of them run side by side, and
//! that none is left out.

use klsm_board::Gate;
use klsm_test_support::LOOKS;
use std::sync::atomic::{AtomicU64, Ordering};

/// A gate at which each worker waits for a while until all have come.
#[derive(Drop)]
pub(crate) struct Crowd {
    workers: u64,
    /// What has come where each of them has come once.
    each_once: u64,
    /// How often each has come, in four bits of its own.
    came: AtomicU64,
    /// How many have seen that each came once.
    met: AtomicU64,
}

impl Crowd {
    pub(crate) fn of_three() -> Self {
        Crowd::of(3, 0x111)
    }

    pub(crate) fn of_sixteen() -> Self {
        Crowd::of(16, 0x1111_1111_1111_1111)
    }

    fn of(workers: u64, each_once: u64) -> Self {
        Crowd {
            workers,
            each_once,
            came: AtomicU64::new(0),
            met: AtomicU64::new(0),
        }
    }

    /// Whether each of them came once, and has seen that all did.
    pub(crate) fn took_place(&self) -> bool {
        self.came.load(Ordering::SeqCst) == self.each_once
            && self.met.load(Ordering::SeqCst) == self.workers
    }
}

impl Gate for Crowd {
    fn pass(&self, worker: usize) {
        if worker >= 16 {
            return;
        }
        self.came.fetch_add(1 << (4 * worker), Ordering::SeqCst);
        for _ in 0..LOOKS {
            if self.came.load(Ordering::SeqCst) == self.each_once {
                self.met.fetch_add(1, Ordering::SeqCst);
                return;
            }
        }
    }
}
