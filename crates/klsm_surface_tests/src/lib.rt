//! The tests of the public surface. They call each public call by its name, with its arguments and its results, and run
//! examples that were worked out by hand from the rules. They use only what the crates show to their callers.
//!
//! A call with other arguments, an error with another variant or a result with another field does not compile here. So
//! a match on an error has an arm for each variant and no other, and a pattern names all fields of a struct.
//!
//! - `errors`: the causes for which calls are refused, in the order in which they are tried;
//! - `runs`, `lsm`, `parts`: runs, LSMs and the parts of a queue;
//! - `world`: schedules of locked steps;
//! - `board`: the members of a board in one thread, and parts that one of them holds;
//! - `knapsack`: the search for a best selection;
//! - `program`: the text and the status of each command.
//!
//! What they share with other tests, also calls on boards, LSMs and runs, stands in `klsm_test_support`.
#![tactic(auto)]

#[cfg(test)]
mod board;
#[cfg(test)]
mod errors;
#[cfg(test)]
mod knapsack;
pub mod letting_go;
#[cfg(test)]
mod lsm;
#[cfg(test)]
mod parts;
#[cfg(test)]
mod program;
#[cfg(test)]
mod runs;
#[cfg(test)]
mod world;
