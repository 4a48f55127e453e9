//! Items, their order, and runs: ascending lists of items, each in one store.
//!
//! An item has a key, a stamp that tells it apart, and a load for its user. A run is what an LSM is
//! built of. It is in order at all times, and two runs unite in one pass. Its items lie side by
//! side in a store with room for more. `FixedRun` keeps the store in the value itself, for a
//! member's own part, and `HeapRun` keeps it on the heap, for the part that all members share:
//!
//! ```text
//! let mut run: FixedRun<64> = FixedRun::single(item);   // at most 64 items
//! run.insert(other);                                    // which the run does not hold yet
//! let mut copy = HeapRun::copy_of_for(alloc, &run, 100)?;
//! copy.unite(&more);                                    // in place, since there is room
//! let least = copy.remove_at(0);
//! ```
//!
//! `Run` is what both offer, and its contract is the same for every store. `Span` says which places
//! of a store the run has, so that one function on slices serves both; `uniting` has the union,
//! from the greatest item down, so that no item is written over before it has moved.
//!
//! - **A run is its list.** Contracts see it as a list of items, and a capacity. It is ascending,
//!   without repeats and within its room whenever it can be seen: clauses `ascending` and `room` of
//!   `Run::len`.
//! - **Items are compared** by key, then owner, number and load: `Item::is_before`. No two items of
//!   one queue have the same stamp, so the load never decides there.
//! - **Runs unite in place** and take no memory: clauses `union` and `capacity` of `Run::unite`.
//! - **The least item leaves by one assignment**, and no other moves. `Run::remove_at` moves the
//!   shorter side; no contract can say so.
//! - **A store on the heap is made by `Run::merge`, the copies and `HeapRun::empty_for` alone**, in one
//!   growth, and its size is said: clauses `reserved`. A store has places for a whole block of its run's
//!   level: `Run::capacity`.
//! - **A run on the heap can be written from its least item on**, in steps and with no memory taken:
//!   `HeapRun::append` and `append_least`, which leaves to a later call what it did not reach.
//! - **A fixed run is never refused memory**: clauses `fixed`.
#![tactic(auto)]

mod appending;
mod fixed_run;
mod heap_run;
mod item;
mod limits;
mod run;
mod span;
mod uniting;

pub use fixed_run::FixedRun;
pub use heap_run::HeapRun;
pub use item::{Item, Stamp};
pub use limits::{
    MOST_K, MOST_LEVELS, MOST_SHARED, MOST_THREADS, OWN_LEVELS, PROGRAM_K, PROGRAM_LEVELS,
    PROGRAM_THREADS,
};
pub use run::{Run, RunError, level_of};
