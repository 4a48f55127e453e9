//! How often a thread says that it went on.
ghost use Rattle.std.specs.Prelude.{◌<◌};

use crate::progress::{Counted, Progress};

/// After so many a thread says that it went on.
const STRIDE: u32 = 4096;

/// Counts what one thread does, so that progress is told of many at once.
#[derive(Drop)]
pub struct Pace {
    counted: Counted,
    /// How many it has counted since it told.
    since: u32,
    ghost few: { since < 4096 },
}

impl Pace {
    ghost use Rattle.std.specs.Prelude.{◌≡◌, ◌+◌, ◌%◌};
    ghost use Rattle.klsm_progress.specs.Pace.{counted_by, since_told};

    /// Nothing yet.
    pub fn new(counted: Counted) -> Self
        ensures counted { counted_by result ≡ counted }
        ensures nothing { since_told result ≡ 0 }
    {
        Pace { counted, since: 0 }
    }

    /// One more. Each 4,096th is told of, with those before it.
    #[inline]
    pub fn count(&mut self, progress: &impl Progress)
        ensures counted { counted_by self.new ≡ counted_by self.old }
        ensures one { since_told self.new ≡ (since_told self.old + 1) % 4096 }
    {
        self.since += 1;
        if self.since == STRIDE {
            self.since = 0;
            progress.went_on(self.counted, u64::from(STRIDE));
        }
    }
}
