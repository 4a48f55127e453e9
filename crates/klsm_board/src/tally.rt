//! How many items each member inserted and deleted.
ghost use Rattle.std.specs.Prelude.{◌≡◌, ◌<◌, length, slice_set};
ghost use Rattle.klsm_run.specs.declared.limits.TheConstants.{MOST_THREADS};

use klsm_run::MOST_THREADS;

/// Two counts for each member of a board.
#[derive(Drop)]
pub(crate) struct Tally {
    pub(crate) inserted: [u64; MOST_THREADS],
    pub(crate) deleted: [u64; MOST_THREADS],
    pub ghost sized: { (length inserted ≡ MOST_THREADS) × (length deleted ≡ MOST_THREADS) },
}

impl Tally {
    pub(crate) fn new() -> Self {
        Tally {
            inserted: [0; MOST_THREADS],
            deleted: [0; MOST_THREADS],
        }
    }

    /// Notes the counts of one member.
    #[inline]
    pub(crate) fn note(&mut self, number: usize, inserted: u64, deleted: u64)
        requires { number < MOST_THREADS }
        ensures inserted { self.new.inserted ≡ slice_set self.old.inserted number inserted }
        ensures deleted { self.new.deleted ≡ slice_set self.old.deleted number deleted }
    {
        self.inserted[number] = inserted;
        self.deleted[number] = deleted;
    }
}
