//! Laws of the definitions that the contracts cite. The functions do nothing: what they ensure is a
//! theorem.
ghost use Rattle.klsm_lsm.specs.Laws.{AddKeeps, AddMerges, AddPuts, CutKeeps};

/// A run that shares no item with a lawful LSM is added to it.
pub fn adding_keeps_lawful()
    ensures { AddKeeps }
{}

/// Whether a run's level is taken decides where it goes.
pub fn adding_merges_equal_levels()
    ensures puts { AddPuts }
    ensures merges { AddMerges }
{}

/// An item is cut out of a lawful LSM.
pub fn cutting_keeps_lawful()
    ensures { CutKeeps }
{}
