//! The knapsack client: its worked instance, its workers, and drawn instances beside a
//! plain loop over all selections.

mod alone;
mod drawn;
mod gated;
mod pruned;
mod reordered;
mod worked;
