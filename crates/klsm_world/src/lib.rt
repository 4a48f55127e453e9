//! A pure world that runs: it takes the steps of a schedule one after another, and refuses those
//! that are not legal.
//!
//! What a world, a step and a schedule are, `klsm_schedules` says, in definitions alone. This crate has
//! such a world in memory, for whoever wants to try a schedule, as the tests do:
//!
//! ```text
//! let steps = [
//!     Step::Acquire { thread: 0, part: 1 },
//!     Step::Commit { thread: 0, event: Event::Put(item) },
//!     Step::Release { thread: 0, part: 1 },
//! ];
//! let trace = run(alloc, 2, 1, &steps)?;      // two threads, at most one item in an own part
//! let mut world = World::new(alloc, 2, 1)?;   // the same by steps
//! world.step(&steps[0])?;
//! ```
//!
//! - **A step is taken exactly where it is legal**, and leads to the next world of the definition;
//!   else it is refused for the first reason that holds, and nothing changes: the contract of
//!   `World::step`. That a refused step is not legal, memory aside, is
//!   `laws::refused_steps_are_not_legal`.
//! - **A run is a schedule.** `run` says what the steps insert, delete and leave, and the greatest
//!   skip, which is at most T·k: clause `trace`. A fault is that of the first step that is refused:
//!   clause `refused`.
//!
//! A world keeps for each part its word and its items in ascending order, be it free or held, and
//! for each thread its list of own steps. The definition has a held part's content in the holder's
//! hand, which it replays from the list; that the two agree is the invariant of `World` (`IsKept`).
//! `world/checking.rt` decides whether a step is legal, from the words and the items, and
//! `world/stepping.rt` takes it: what needs memory comes first, so that nothing has changed where
//! that is refused.
//!
//! Nothing of a queue stands on this crate. It shows that the definitions are of something that can
//! run, and lets a plain program of the tests be compared with them step by step.
#![tactic(auto)]

mod conditions;
mod contents;
mod errors;
pub mod laws;
mod own_steps;
mod running;
mod world;

pub use errors::{StepError, WorldError};
pub use klsm_schedules::{Entry, Event, Items, Step};
pub use running::{Trace, run};
pub use world::World;
