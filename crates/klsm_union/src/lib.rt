//! Two runs that another thread makes one, while items leave the front of both.
//!
//! ```text
//! let blank = UnionBlank::new(alloc)?;              // takes memory, before any lock
//! let (mut union, work) = Union::begin(left, right, blank)?;
//! while let Some(more) = work.carry_on(256) { .. }  // in another thread, which holds no lock
//! union.remove_first(3);                            // meanwhile
//! if let Ok((run, spent)) = union.collect() { .. }  // the one run, less what has left
//! ```
//!
//! - **A union is the list of the items of both runs**, in order, whoever holds which of them: its model.
//! - **The work reads what the two runs held when it began**, and the union takes what it gives from the place up to
//!   which items have left meanwhile: clause `items` of `Union::collect`.
//! - **Nothing is taken over but that very list**: the worker owes the union of these two runs, and no other value can
//!   be given. That it comes at all, no contract says.
//! - **Memory is taken by the worker**, but for the ring of the hand-off, which is made before. If it is refused, the
//!   worker gives nothing: `Union::is_given_up`.
#![tactic(auto)]

mod counting;
mod halves;
mod shared_run;
mod spent;
#[cfg(test)]
mod tests;
mod union;
mod work;

pub use halves::{Halves, UnionBlank};
pub use shared_run::SharedRun;
pub use spent::Spent;
pub use union::Union;
pub use work::Work;
