//! Why a step, a world or a run was refused.

use thiserror::Error;

/// Why a step was refused. They are tried in this order.
#[derive(Clone, Copy, Debug, PartialEq, Eq, Error)]
pub enum StepError {
    /// It names a thread, a part or a victim that is not there, or the thread itself as the victim.
    #[error("no such thread, part or victim")]
    NoSuchPart,
    /// The part to be acquired is held by this thread, which may be the one that steps.
    #[error("the part is held by thread {0}")]
    Held(u32),
    /// The thread does not hold a part that the step needs.
    #[error("the thread does not hold a part that it needs")]
    NotHeld,
    /// The event may not be committed, the part to be missed is not held by another thread, or the
    /// key to be marked is not that of the item that the thread works at.
    #[error("the event's condition fails")]
    WrongEvent,
    /// A growth was refused.
    #[error("out of memory")]
    NoMemory,
}

/// Why there is no world, or no run. They are tried in this order.
#[derive(Clone, Copy, Debug, PartialEq, Eq, Error)]
pub enum WorldError {
    /// The number of threads is not 1 to 16.
    #[error("the number of threads is not 1 to 16")]
    BadThreads,
    /// An own part may have more than 128 items.
    #[error("k is more than 128")]
    BadK,
    /// The first step that was refused, counted from 0, and why.
    #[error("step {0}: {1}")]
    At(usize, StepError),
    /// A growth was refused.
    #[error("out of memory")]
    NoMemory,
}
