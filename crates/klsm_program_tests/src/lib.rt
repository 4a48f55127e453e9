//! The tests of the program and of the knapsack client, which use only what these show to their callers.
//!
//! A crate with tests is proved twice, with them and without, so they stand here, above all that they
//! test. `program` has what no table of words, scripts and answers can show: faults in mid-stream, the
//! order of what is read and written, and threads that wait. The tables stand in the folder `tests`.
//! `knapsack` has the client beside a plain loop over all selections. `crowd` is a gate at which three or sixteen
//! workers meet, for both.
#![tactic(auto)]

#[cfg(test)]
mod crowd;
#[cfg(test)]
mod knapsack;
#[cfg(test)]
mod program;
