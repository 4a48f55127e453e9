//! Laws of the definitions that the contracts cite. The functions do nothing: what they ensure is a
//! theorem.
ghost use Rattle.klsm_knapsack.specs.Work.{NothingIsMissed};

/// Where each worker is done with what it deleted, what was inserted was deleted or is left, and what
/// is left is finished, no feasible selection is above the answer.
pub fn nothing_is_missed()
    ensures { NothingIsMissed }
{}
