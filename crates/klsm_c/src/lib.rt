//! The board for C, as a static library. `include/klsm.h` declares these functions, and says what C owes.
//!
//! A queue is memory of the caller's: 64 slots of two cache lines each. A slot that is open has one
//! member of a board, behind a pointer; a slot of zeros is closed. `klsm_open` makes a board and puts its
//! members into the first slots; so does `klsm_open_with_balance`. From then on each thread uses one slot
//! (`klsm_try_insert`, `klsm_try_delete_min`, `klsm_try_share`, `klsm_try_bound`, `klsm_try_rest`), and once they are
//! done, `klsm_close_into` ends the board with the account of all members and what is left. `klsm_drop` lets a queue go
//! without an account.
//!
//! What C gets is what `klsm_board` promises:
//!
//! - **A call of a slot is a call of the member behind it**, with all that `Member::try_insert`,
//!   `Member::try_delete_min`, `Member::try_share`, `Member::try_bound` and `Member::try_rest` promise, and its code says
//!   which answer it was (`InsertsBySlot`, `DeletesBySlot`, `SharesBySlot`, `BoundsBySlot` and `RestsBySlot` of
//!   `specs/Calls.antt`).
//! - **A code comes exactly where its cause holds**, and after a refusal nothing has changed. That memory is refused only
//!   where `malloc` gave none is tested, and no clause says so.
//! - **The members of an open queue are all those of one board.** That is part of the type `Queue`, each
//!   call keeps it, and so `klsm_close_into` has no premise.
//! - **At the end each item that was inserted was deleted, once, or is left, once** (`IsAccount` of
//!   `specs/Closing.antt`).
//!
//! No proof says what C does with a queue between two calls; docs/C-INTERFACE.md lists what is trusted.
#![tactic(auto)]

mod bounding;
mod calls;
mod closing;
mod codes;
mod handle;
mod item;
mod opening;
mod queue;
mod queue_calls;
mod raw_box;
mod resting;
mod sharing;
mod slot;

pub use bounding::{PlainBound, klsm_try_bound};
pub use calls::{klsm_deleted, klsm_front, klsm_inserted, klsm_try_delete_min, klsm_try_insert};
pub use closing::{Account, klsm_close_into, klsm_drop};
pub use codes::{klsm_abi, klsm_version};
pub use handle::Handle;
pub use item::PlainItem;
pub use opening::{klsm_open, klsm_open_with_balance};
pub use queue::Queue;
pub use raw_box::RawBox;
pub use resting::klsm_try_rest;
pub use sharing::{klsm_try_delete_min_alone, klsm_try_share};
pub use slot::Slot;
