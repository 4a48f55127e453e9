//! The search in one thread, depth first.
ghost use Rattle.std.specs.Prelude.{ℕ, ◌≡◌, ◌≤◌, ◌<◌, ◌+◌, ◌-◌, ◌⊎◌, length};
ghost use Rattle.klsm_instance.specs.Selections.{IsBest};
ghost use Rattle.klsm_instance.specs.Nodes.{IsNodeOf, NoneAbove};
ghost use Rattle.klsm_instance.specs.Answers.{IsAnswer, IsBestAnswer};

use crate::instance::Instance;
use crate::node::Node;

/// A selection, which has thing i where bit i of `picks` is set, and its value.
#[derive(Clone, Copy, Debug, Drop, PartialEq, Eq)]
pub struct Best {
    /// The sum of the values of the things selected.
    pub value: u64,
    /// The things selected.
    pub picks: u64,
}

/// A best selection, found depth first in one thread and without memory.
pub fn solve_in_turn(instance: &Instance) -> Best
    ensures { IsBestAnswer instance.now result }
{
    let nothing = Best { value: 0, picks: 0 };
    instance.finish(instance.root(), nothing)
}

impl Instance {
    /// The better of `best` and the best completion of a node, searched depth first.
    pub fn finish(&self, node: Node, best: Best) -> Best
        requires node { IsNodeOf self.now node }
        requires best { IsAnswer self.now best }
        ensures answer { IsAnswer self.now result }
        ensures kept { best.value ≤ result.value }
        ensures covers { NoneAbove self.now node.level node.picks result.value }
    {
        let best = raised(best, node.taken.value, node.picks);
        if node.level == self.len() || self.is_bounded_by(&node, best.value) {
            return best;
        }
        let best = match self.taking(&node) {
            Some(child) => self.finish(child, best),
            None => best,
        };
        self.finish(self.leaving_alike(&node), best)
    }
}

// The better of an answer and a selection.
#[inline]
fn raised(best: Best, value: u64, picks: u64) -> Best
    ensures better { (best.value ≤ result.value) × (value ≤ result.value) }
    ensures one { (result ≡ best) ⊎ (result ≡ record { value = value; picks = picks }) }
{
    if best.value < value {
        Best { value, picks }
    } else {
        best
    }
}
