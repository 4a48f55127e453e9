//! The pure world of a k-LSM: threads that acquire parts, commit events and release the parts, one
//! step after another.
//!
//! A queue with locks is as good as the interleavings of its locked steps. This crate says what
//! these are, apart from any lock that runs: a world has T threads, T + 1 parts, the shared part 0
//! and thread t's own part t + 1, and a front word. A step acquires a free part, releases one, tries
//! one in vain, looks at the front, marks the key of the item that its thread works at, or commits
//! an event on parts in hand. A list of legal steps is a schedule. Whoever wants to know what a
//! relaxed queue can do reads `specs/`. There is no code beside it but the words in which steps and
//! lists are told (`Step`, `Event` and `Entry`) and the laws; `klsm_world` runs a schedule.
//!
//! - **The laws** hold of every schedule, for every T and k, and each is the contract of a function
//!   of `laws`: each world is lawful; a deletion skips at most T·k of all live items, and one by the
//!   front at most (T-1)·k; neither skips an item of its own thread's in the two parts that it is
//!   from; "nothing" is answered only where at most (T-1)·k items live; the events are a run of the
//!   relaxed queue of one thread; an acquire records the content that was at home, which ascends,
//!   and a look the front; where no item is inserted with a key below that of the one at which its
//!   thread works, the least key of all that live and of these never falls.
//! - **A thread's own list is enough** to know that its deletion skips few, that the parts in its
//!   hand are disjoint, and that its next item is new: `laws::own_lists_tell`. So whoever runs
//!   threads has to keep each thread's list, and no picture of the world.
//!
//! A world also has a front word: the key of the least item of the shared part, be it free or held. A
//! thread whose least own item has a key below it may delete that item with its own part alone in hand.
//!
//! Why a deletion skips so few: its item is among the least k+1 of the shared part, or smaller, and
//! no own item is smaller, so at most k items of the two parts are; each other own part holds at
//! most k items, whatever they are. Where the key is below the front, no item of the two parts is
//! smaller, so only the other own parts count.
#![tactic(auto)]

mod items;
pub mod laws;
mod step;

pub use items::Items;
pub use step::{Entry, Event, Step};
