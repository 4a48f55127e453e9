//! After the workers: the nodes that are left are finished.
ghost use Rattle.std.specs.Prelude.{ℕ, ◌≡◌, ◌+◌, List};
ghost use Rattle.klsm_instance.specs.Answers.{IsAnswer, IsBestAnswer};
ghost use Rattle.klsm_knapsack.specs.Numbers.{IsIncumbent};
ghost use Rattle.klsm_knapsack.specs.Workers.{IsSearched};

use klsm_instance::{Best, Instance, unpacked};
use klsm_run::Item;

/// The better of the incumbent's last number and the best completions of the nodes left, which are
/// searched depth first.
pub(crate) fn conclude(instance: &Instance, number: u64, left: &[Item]) -> Best
    requires { IsIncumbent instance.now number }
    ensures answer { IsAnswer instance.now result }
    ensures best { IsSearched instance.now number left.now → IsBestAnswer instance.now result }
{
    let (value, picks) = unpacked(number);
    let mut best = Best { value, picks };
    for item in left {
        if let Some(node) = instance.node_of(item.load) {
            best = instance.finish(node, best);
        }
    }
    best
}
