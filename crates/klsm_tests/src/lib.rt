//! The tests of the queue's layers, which use only what these show to their callers.
//!
//! A crate with tests is proved twice, with them and without, so they stand here, above all that
//! they test. Each folder has the tests of one subject:
//!
//! - `board`: a board and its members, in one thread and in several;
//! - `given_back`: that a queue that is let go keeps no memory;
//! - `runs`: copies and merges of runs;
//! - `lsm`: LSMs over runs on the heap and fixed ones, with the blocks that each call leaves;
//! - `parts`: a queue for one thread and its parts, beside a plain program written from the rules;
//! - `printed`: what runs, LSMs, parts and worlds print, and the texts of refusals;
//! - `rationed`: the allocator by which tests refuse each growth in turn;
//! - `world`: the pure world of threads and locked steps, beside a plain program written from its
//!   definitions.
#![tactic(auto)]

#[cfg(test)]
mod board;
#[cfg(test)]
mod given_back;
pub mod letting_go;
#[cfg(test)]
mod lsm;
#[cfg(test)]
mod parts;
#[cfg(test)]
mod printed;
#[cfg(test)]
mod queues;
#[cfg(test)]
mod rationed;
#[cfg(test)]
mod rules;
#[cfg(test)]
mod runs;
#[cfg(test)]
mod world;
