//! Branch and bound for the 0-1 knapsack problem, over the relaxed priority queue.
//!
//! The search goes over nodes, each of which fixes the choices of the first things: `klsm_instance`,
//! whose names stand here too, has instances, nodes, their bounds and the search in one thread. A node
//! that can't be better than the best selection found so far, the incumbent, is closed; any other has
//! a child that leaves the next thing and, where that fits, one that takes it. Open nodes lie on a
//! board, so that several workers take them side by side, each in a thread of its own:
//!
//! ```text
//! let instance = Instance::read(alloc, text)?;                  // capacity,10 and then value,weight
//! let best = solve_in_turn(&instance);                          // depth first, in one thread
//! let options = SearchOptions::new(4, 16, 64);                  // four workers, k = 16
//! let listeners = Listeners { gate: &Open, progress: &Silent };
//! let best = solve::<21>(&rt, alloc, &instance, 4, 16, 64, &Open)?;          // the same without options
//! let best = solve_with::<_, _, 21>(&rt, alloc, &instance, &options, &listeners)?;
//! let best = solve_to_the_end::<_, _, 21>(&rt, alloc, &instance, &options, &listeners)?;   // and never full
//! ```
//!
//! `klsm knapsack` calls `solve_to_the_end`. `solve` is for a caller that wants to hear of a board that was full: it is
//! the same search but for that, and no crate here calls it but that of the tests, which see by it where workers leave
//! nodes that they could close.
//!
//! The search goes over the things in the order of its instance: `Instance::steepest_first` gives the
//! one in which fewest nodes wait.
//!
//! - **The answer is a best selection**, for every number of workers, every k, `idle` and gate, and
//!   whatever the threads do: clause `best` of `solve`; and for every number of nodes that deletions
//!   move: that of `solve_to_the_end`.
//! - **A refusal is that of the least numbered worker that met one.** Of a full board clause `refused` of
//!   `solve` says so; want of memory could also be that of the board itself. The clauses `bad_threads`,
//!   `bad_k` and, of `solve_with`, `bad_refill` say when the arguments are refused. No growth stands between the joins and
//!   that answer.
//! - **No want of room ends `solve_to_the_end`**, whose error has no Full. A worker of it that finds no
//!   room for a child searches the node depth first, and each node that it takes from then on: clause
//!   `covers` of `Incumbent::search_alone`, which is private. The root always finds room, as it is the first item
//!   of its board: clause `never_full` of the private `solve_on_board`.
//! - **An answer is that of the search that the options name**: clause `ran` of both says that there are lists of so
//!   many workers, over a board of that k and refill, each by a generator of its own, and idle as often as they say.
//! - **The incumbent is never lowered.** It is one word of a table of its own, whose rule every step
//!   keeps: the word is the greatest of the numbers that the seats raised it by, and never below one
//!   that a seat found there: `Highest`, and clause `rule` of `Incumbent::finish`.
//!
//! Why no selection is missed: each worker is done with each node that it deleted, since it closed the
//! node by a number that it found, maybe after it had searched the node alone, or inserted its children;
//! what some worker inserted, some worker deleted or the board has left, by the account of the board; and
//! what is left the caller finishes. So by induction on the things that a node leaves free no completion
//! of it is above the answer. `laws::nothing_is_missed` states this.
//!
//! `worker` has what one worker does once it has passed its gate (`passing`), `alone` what it does without
//! the board, `crew` all of them, `ending` what follows, and `solving` and `to_the_end` the whole. No contract says how many nodes the
//! workers close, or that a second one finds any.
#![tactic(auto)]

mod alone;
mod crew;
mod ending;
mod errors;
mod incumbent;
mod incumbent_seat;
pub mod laws;
mod options;
mod passing;
mod rule;
mod search_state;
mod solving;
mod to_the_end;
mod worker;

pub use errors::{SearchError, SolveError, UnsolvedError};
pub use incumbent::{Incumbent, IncumbentSeat};
pub use klsm_instance::{Best, Instance, Node, ReadError, Reordered, Thing, solve_in_turn};
pub use options::SearchOptions;
pub use passing::Passed;
pub use rule::{Highest, View};
pub use search_state::Listeners;
pub use solving::{solve, solve_with};
pub use to_the_end::solve_to_the_end;
