//! Where the workers of a program may be held up before they begin.

/// A gate that each worker passes once, before it does anything else. So a test can tell that
/// workers run side by side: one that waits there for another goes on only where both run.
pub trait Gate: Sync {
    /// Lets the worker of this number pass. It has to return.
    fn pass(&self, worker: usize);
}

/// The gate that holds nobody up.
#[derive(Clone, Copy, Debug, Drop)]
pub struct Open;

impl Gate for Open {
    fn pass(&self, _worker: usize) {}
}
