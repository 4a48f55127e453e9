//! Why calls are refused.

use thiserror::Error;

/// The first lock in the order of acquiring that was not free, and the member that held it.
#[derive(Clone, Copy, Debug, PartialEq, Eq, Error)]
#[error("lock {lock} is held by member {by}")]
pub struct Busy {
    /// The number of the lock: 0 for the shared part, `t + 1` for member t's own.
    pub lock: usize,
    /// The member that held it at that try.
    pub by: u32,
}

/// Why `Board::new` makes no board. The causes are tried in this order.
#[derive(Clone, Copy, Debug, PartialEq, Eq, Error)]
pub enum MakeError {
    /// Not 1 to 16 members.
    #[error("the number of members is not 1 to 16")]
    BadThreads,
    /// More items in an own part than a run can hold.
    #[error("an own part cannot hold k items")]
    BadK,
    /// More than 2^48 insertions for each member.
    #[error("the quota is more than 2^48 insertions")]
    BadQuota,
    /// An allocation was refused.
    #[error("out of memory")]
    NoMemory,
}

/// Why `Board::with_refill` makes no board. The causes are tried in this order.
#[derive(Clone, Copy, Debug, PartialEq, Eq, Error)]
pub enum SizesError {
    /// Not 1 to 64 members.
    #[error("the number of members is not 1 to 64")]
    BadThreads,
    /// More items in an own part than a run can hold.
    #[error("an own part cannot hold k items")]
    BadK,
    /// More than 2^48 insertions for each member.
    #[error("the quota is more than 2^48 insertions")]
    BadQuota,
    /// More items moved by a deletion than an own part may have.
    #[error("a deletion cannot move more than k items")]
    BadRefill,
    /// A growth was refused.
    #[error("out of memory")]
    NoMemory,
}

/// Why an insertion that never blocks is refused. The causes are tried in this order.
#[derive(Clone, Copy, Debug, PartialEq, Eq, Error)]
pub enum TryInsertError {
    /// The member has made all its insertions.
    #[error("the member has made all its insertions")]
    Spent,
    /// A lock was not free.
    #[error("{0}")]
    Busy(Busy),
    /// The shared part has no room for what would move.
    #[error("the shared part is full")]
    Full,
    /// A growth was refused.
    #[error("out of memory")]
    NoMemory,
}

/// Why an insertion that may wait is refused. The causes are tried in this order.
#[derive(Clone, Copy, Debug, PartialEq, Eq, Error)]
pub enum InsertError {
    /// The member has made all its insertions.
    #[error("the member has made all its insertions")]
    Spent,
    /// The shared part has no room for what would move.
    #[error("the shared part is full")]
    Full,
    /// A growth was refused.
    #[error("out of memory")]
    NoMemory,
}

/// Why items are not shared by a call that never blocks. The causes are tried in this order.
#[derive(Clone, Copy, Debug, PartialEq, Eq, Error)]
pub enum TryShareError {
    /// A lock was not free.
    #[error("{0}")]
    Busy(Busy),
    /// The shared part has no room for the items.
    #[error("the shared part is full")]
    Full,
    /// A growth was refused.
    #[error("out of memory")]
    NoMemory,
}

/// Why items are not shared by a call that may wait. The causes are tried in this order.
#[derive(Clone, Copy, Debug, PartialEq, Eq, Error)]
pub enum ShareError {
    /// The shared part has no room for the items.
    #[error("the shared part is full")]
    Full,
    /// A growth was refused.
    #[error("out of memory")]
    NoMemory,
}

/// Why a part is not held. The causes are tried in this order.
#[derive(Clone, Copy, Debug, PartialEq, Eq, Error)]
pub enum HoldError {
    /// There is no lock of this number.
    #[error("there is no such lock")]
    NoSuchLock,
    /// It was not free.
    #[error("{0}")]
    Busy(Busy),
}

/// Why a board is not finished. The causes are tried in this order.
#[derive(Clone, Copy, Debug, PartialEq, Eq, Error)]
pub enum FinishError {
    /// No member of this number, the least one that is absent, was given back.
    #[error("member {0} is missing")]
    Missing(u32),
    /// A growth was refused.
    #[error("out of memory")]
    NoMemory,
}
