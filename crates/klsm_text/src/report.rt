//! How a run ended, and what it leaves.

/// Why a run ended.
#[derive(Clone, Copy, Debug, PartialEq, Eq)]
pub enum End {
    /// Every row was answered.
    Done,
    /// A row was refused.
    Refused,
    /// The shared part had no room. No run ends so: a script has fewer rows than the shared part has room for, and a
    /// search goes on without.
    Full,
    /// An allocation was refused.
    NoMemory,
    /// The reader failed.
    ReadFault,
    /// The writer failed.
    WriteFault,
}

/// What a run leaves.
#[derive(Clone, Copy, Debug, PartialEq, Eq)]
pub struct Report {
    /// Why it ended.
    pub end: End,
    /// How many bytes of the text went out, which are its first ones: all of it unless `end` is
    /// `WriteFault`.
    pub written: u64,
}
