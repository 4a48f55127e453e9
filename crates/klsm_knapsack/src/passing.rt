//! How a worker passes its gate.
ghost use Rattle.std.specs.Prelude.{◌≡◌};

use crate::search_state::Listeners;
use klsm_board::Gate;

/// Says that the worker of this number has passed its gate. Only `Listeners::pass` makes one.
#[derive(Drop)]
pub struct Passed {
    worker: usize,
}

impl<'a, G: Gate, P> Listeners<'a, G, P> {
    /// Lets the worker of this number pass its gate.
    pub fn pass(&self, worker: usize) -> Passed
        ensures { result.worker ≡ worker }
    {
        self.gate.pass(worker);
        Passed { worker }
    }
}
