//! The limits of the library and of the program, each with its one name.

/// The most items of an own part, and so the greatest k.
pub const MOST_K: usize = 1024;

/// The most levels of an LSM. One block of the greatest level is as long as a run on the heap can be.
pub const MOST_LEVELS: usize = 27;

/// The most items of a run on the heap, and so of a shared part: 67,108,864, which take 2 GiB.
pub const MOST_SHARED: usize = 1 << (MOST_LEVELS - 1);

/// The levels of an own part. One block of the greatest has `MOST_K` items.
pub const OWN_LEVELS: usize = 11;

/// The most members of a board.
pub const MOST_THREADS: usize = 64;

/// The greatest k of the program `klsm`, and the most items of an own part of its boards.
pub const PROGRAM_K: usize = 64;

/// The most threads of the program `klsm`, and the most members of a board that `Board::new` makes.
pub const PROGRAM_THREADS: usize = 16;

/// The levels of the shared part of the program's boards, which so has room for 1,048,576 items. A search that fills it
/// goes on depth first: more would take gigabytes.
pub const PROGRAM_LEVELS: usize = 21;
