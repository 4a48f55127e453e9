//! Why a call on an LSM was refused.

use klsm_run::Run;
use std::fmt;
use thiserror::Error;

/// Why an LSM did not change.
#[derive(Clone, Copy, Debug, PartialEq, Eq, Error)]
pub enum LsmError {
    /// The items would be more than the limit.
    #[error("the LSM is full")]
    Full,
    /// A growth was refused.
    #[error("out of memory")]
    NoMemory,
}

/// A run that was not absorbed, handed back. Its text is that of why.
#[derive(Debug, Drop, Error)]
#[error_bound(R: fmt::Debug)]
#[error("{why}")]
pub struct Refused<R: Run> {
    /// Why it was not absorbed.
    pub why: LsmError,
    /// The run, as it was.
    pub run: R,
}
