//! Instances of the 0-1 knapsack problem, the nodes of a search for a best selection, and that search
//! in one thread.
//!
//! A problem has up to 32 things, each of a value and a weight, and a capacity. A selection of
//! things is a number: thing i is in it where bit i is set. A node fixes the choices of the first
//! things:
//!
//! ```text
//! let instance = Instance::read(alloc, text)?;                  // capacity,10 and then value,weight
//! let best = solve_in_turn(&instance);                          // depth first
//! let root = instance.root();
//! let child = instance.leaving(&root);                          // and instance.taking(&root), where that fits
//! let item = (instance.key_of(&child), instance.load_of(&child));
//! ```
//!
//! A solver over any queue finds here what it needs: `klsm_knapsack` is the one over the board of
//! this repository. A search goes over the things in the order of its instance, and fewest nodes wait
//! where those of the greatest value for their weight come first:
//!
//! ```text
//! let steepest = instance.steepest_first(alloc)?;
//! let best = steepest.restored(solve_in_turn(steepest.instance()));     // by the things of `instance`
//! ```
//!
//! - **The bound is exact**, and no completion of a node is above it: clauses `exact` and `sound` of
//!   `Instance::bound`. An instance keeps the sum and the steepest thing of each suffix, so that a
//!   bound costs one division beside the sum of what is taken, and to compare it with a value takes none.
//! - **A text is read by its rows**, and refused for the first reason that holds: `Instance::read`.
//! - **Things that are the same need not be tried one by one**: clause `covers` of `Instance::leaving_alike`.
//! - **The search in one thread answers a best selection**: the contract of `solve_in_turn`. It is
//!   `Instance::finish` at the root, which a solver also takes for the nodes that it has left.
//! - **What is best in another order is given back as what is best in the first one**: clause `best` of
//!   `Reordered::restored`.
#![tactic(auto)]

mod errors;
mod instance;
mod judge;
mod node;
mod reading;
mod reordered;
mod rows;
mod search;
mod tail;
mod thing;

pub use errors::ReadError;
pub use instance::Instance;
pub use node::{Node, packed, unpacked};
pub use reordered::Reordered;
pub use search::{Best, solve_in_turn};
pub use thing::Thing;
