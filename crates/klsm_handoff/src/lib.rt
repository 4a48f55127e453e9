//! A value that one owner hands to another, once, with a fact about it that was fixed when the two ends were made.
//!
//! ```text
//! let blank = Blank::new(alloc)?;               // takes the memory
//! let (giver, mut taker) = blank.agree(&terms); // takes none
//! giver.give(value);                            // requires that the value meets the terms
//! if let Some(value) = taker.try_take()         // ensures it
//! ```
//!
//! - **The terms are a value of each hand-off**, known when it is made, and no bytes of them are kept:
//!   `giver_terms` and `taker_terms` of `specs/Ends.antt`.
//! - **Memory is taken before there is anything to agree on**, by `Blank::new` alone, and so outside of any lock.
//! - **Neither end waits**: no function takes a handle. Either end may be dropped at any time, in any thread.
//! - **The value comes at most once**: clause `once` of `Taker::try_take`.
#![tactic(auto)]

mod blank;
mod giver;
mod known;
mod letter;
mod taker;
#[cfg(test)]
mod tests;

pub use blank::Blank;
pub use giver::Giver;
pub use known::Known;
pub use taker::Taker;

/// What is fixed of a value before there is one.
pub trait Terms<T> {
    // The value meets these terms.
    ghost met_by: { Self → T → Type 0 };
}
