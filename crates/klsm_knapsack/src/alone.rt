//! The search of a node without the board.
ghost use Rattle.std.specs.Prelude.{◌≡◌, ◌≤◌};
ghost use Rattle.klsm_instance.specs.Limits.{IsInRange};
ghost use Rattle.klsm_instance.specs.Nodes.{IsNodeOf, NoneAbove};
ghost use Rattle.klsm_knapsack.specs.Numbers.{value_in};
ghost use Rattle.klsm_knapsack.specs.IncumbentSeats.{found_by, IsSeatAt, problem_of};

use crate::incumbent::{Incumbent, IncumbentSeat};
use klsm_instance::{Instance, Node};
use klsm_progress::{Pace, Progress};

impl Incumbent {
    /// Searches a node depth first, and raises the word to the best completion, where that is better.
    ///
    /// The word is looked at for each node, so that what other threads find meanwhile closes nodes here.
    pub(crate) fn search_alone<P: Progress>(
        &self,
        seat: &mut IncumbentSeat,
        instance: &Instance,
        node: Node,
        pace: &mut Pace,
        progress: &P,
    )
        requires seat { IsSeatAt self.now seat.old }
        requires problem { problem_of self.now ≡ instance.now }
        requires node { IsNodeOf instance.now node }
        requires range { IsInRange instance.now }
        ensures same { seat.new.table_seat.table_id ≡ seat.old.table_seat.table_id }
        ensures found { found_by seat.old ≤ found_by seat.new }
        ensures covers { NoneAbove instance.now node.level node.picks
            (value_in (found_by seat.new)) }
    {
        pace.count(progress);
        let found = self.raise_to(seat, instance, &node);
        if node.level == instance.len() || instance.is_bounded_by(&node, found) {
            return;
        }
        if let Some(child) = instance.taking(&node) {
            self.search_alone(seat, instance, child, pace, progress);
        }
        let rest = instance.leaving_alike(&node);
        self.search_alone(seat, instance, rest, pace, progress)
    }
}
