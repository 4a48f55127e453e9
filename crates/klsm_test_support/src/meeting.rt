//! Gates of tests: one at which two workers meet, so that a test sees them run side by side, and one
//! that counts.

use klsm_board::Gate;
use std::sync::atomic::{AtomicBool, AtomicU64, Ordering};

/// How often a worker at a gate looks for another.
pub const LOOKS: u64 = 1_000_000_000;

/// A gate for two workers, at which each waits for a while until both have come.
#[derive(Drop)]
pub struct Meeting {
    came: [AtomicBool; 2],
    met: [AtomicBool; 2],
}

impl Meeting {
    pub fn new() -> Self {
        Meeting {
            came: [AtomicBool::new(false), AtomicBool::new(false)],
            met: [AtomicBool::new(false), AtomicBool::new(false)],
        }
    }

    /// Whether each worker has seen that the other came.
    pub fn took_place(&self) -> bool {
        self.met[0].load(Ordering::SeqCst) && self.met[1].load(Ordering::SeqCst)
    }
}

impl Gate for Meeting {
    fn pass(&self, worker: usize) {
        let (here, there) = if worker == 0 { (0, 1) } else { (1, 0) };
        self.came[here].store(true, Ordering::SeqCst);
        for _ in 0..LOOKS {
            if self.came[there].load(Ordering::SeqCst) {
                self.met[here].store(true, Ordering::SeqCst);
                return;
            }
        }
    }
}

/// A gate for three workers, which counts how often each passes.
#[derive(Drop)]
pub struct Counting {
    passed: [AtomicU64; 3],
}

impl Counting {
    pub fn new() -> Self {
        Counting {
            passed: [AtomicU64::new(0), AtomicU64::new(0), AtomicU64::new(0)],
        }
    }

    /// How often each has passed.
    pub fn passed(&self) -> [u64; 3] {
        [
            self.passed[0].load(Ordering::SeqCst),
            self.passed[1].load(Ordering::SeqCst),
            self.passed[2].load(Ordering::SeqCst),
        ]
    }
}

impl Gate for Counting {
    fn pass(&self, worker: usize) {
        if let Some(passed) = self.passed.get(worker) {
            passed.fetch_add(1, Ordering::SeqCst);
        }
    }
}
