//! A log-structured merge tree (LSM) of sorted runs.
//!
//! An LSM is a list of blocks, and a block is a run that is not empty. A block of level `l` has
//! more than `2^(l-1)` and at most `2^l` items, and no two blocks are of one level. So an LSM of
//! `n` items has at most about `log n` blocks, its least item is the first of some block, and a
//! block of `2^l` items is merged about once in `2^l` insertions.
//!
//! - **Lawful at all times.** The invariant of `Lsm` holds of every value: lawful blocks of
//!   descending levels, no item in two of them, and no more items than the limit. `Lsm::len` tells
//!   it to its callers.
//! - **Adding and removing.** `Lsm::absorb` and `Lsm::insert` leave `add` of the old blocks, and
//!   `Lsm::remove` leaves `cut`. The functions of `laws` say what these two are for: both keep an
//!   LSM lawful, and its content is the old one with the run's items, or without the item.
//!   `Lsm::remove_items` takes several out at once, and leaves `cut_items`, of which `cut` is a case.
//!   `Lsm::cascade` and `Lsm::partner` tell before which blocks become one. `Lsm::absorb_items` does what
//!   `Lsm::absorb` does, with items that have no store of their own, and `Lsm::to_run` copies all items as one run.
//! - **A store stays in its slot.** Blocks unite in place, and what leaves is read as a slice. An
//!   LSM over fixed runs never takes memory, and one over other runs only where a run is put in, in
//!   one growth, before anything changes.
//! - **A refusal changes nothing.** The clauses `unchanged` say so, and `handed_back` that a
//!   refused run comes back.
#![tactic(auto)]

mod absorbing;
mod errors;
mod fixed;
pub mod laws;
mod lsm;
mod places;
mod removing;
mod settling;
mod slots;

pub use errors::{LsmError, Refused};
pub use lsm::Lsm;
pub use places::{Cascade, comes_before};
