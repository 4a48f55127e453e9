//! What a member does between two tries of a call that may wait.
//!
//! A try without a pause takes the line of the lock word from the holder, who then needs longer. So a member spins at
//! first, twice as long after each miss, then yields its processor, and at last sleeps. Spinning and yielding are those
//! of `Backoff` of `crossbeam_utils`.
//!
//! What a pause does is no value, so no contract of a spin or a sleep can say it. A `Waiter` therefore has a relation
//! between itself before and after a pause of each kind, of which `Pause::wait` knows nothing: it can only keep its clause
//! by one call of that kind.
ghost use Rattle.std.specs.Prelude.{ℕ, ◌≡◌, ◌+◌, ◌<◌, ◌≤◌, min};
ghost use Rattle.klsm_run.specs.declared.limits.TheConstants.{MOST_THREADS};
ghost use Rattle.klsm_board.specs.Rule.{place};
ghost use Rattle.klsm_board.specs.Pausing.{SleepsWithin, most_misses, rest_after};

use crate::errors::Busy;
use crate::rule::{Holding, Locks, STRIDE};
use crossbeam_utils::Backoff;
use std::sync::Wait;
use std::time::Duration;

// After how many misses a member sleeps, so that the holder has a processor where there are fewer of these than
// threads.
const MISSES_AWAKE: u32 = 200;

// For how many microseconds it sleeps at most. It wakes by itself, since a release wakes nobody.
const NAP: u64 = 50;

/// What comes between two tries.
pub(crate) enum Rest {
    /// `Backoff::snooze`: a spin or a yield.
    Snooze,
    /// A sleep of at most so many microseconds, as long as this word of the table has this number.
    Sleep {
        word: usize,
        expected: u32,
        micros: u64,
    },
}

/// Who can rest.
pub(crate) trait Waiter {
    ghost use Rattle.klsm_board.specs.declared.pausing.Rest.{Rest};

    /// How many words the table has on which it sleeps.
    ghost words: { Self → ℕ };

    /// What one rest makes of it.
    ghost rested: { Self → Rest → Self → Type 0 };

    /// Rests once.
    fn rest(&mut self, rest: Rest)
        requires { SleepsWithin rest (words self.old) }
        ensures words { words self.new ≡ words self.old }
        ensures rested { rested self.old rest self.new };
}

/// A thread that can spin, yield, and sleep on the words of a board.
#[derive(Drop)]
pub(crate) struct Thread<'a, R, S: Holding> {
    rt: &'a R,
    table: &'a Locks<S>,
    backoff: Backoff,
}

impl<R: Wait, S: Holding> Waiter for Thread<'_, R, S> {
    ghost use Rattle.std.specs.Prelude.{⊤};

    ghost words = { λ thread. thread.table.now.table_id.words };

    ghost rested = { λ before rest after. ⊤ };

    fn rest(&mut self, rest: Rest) {
        match rest {
            Rest::Snooze => self.backoff.snooze(),
            Rest::Sleep {
                word,
                expected,
                micros,
            } => {
                let most = Duration::from_micros(micros);
                self.table.park_timeout(self.rt, word, expected, most);
            }
        }
    }
}

/// The pauses of one call.
#[derive(Drop)]
pub(crate) struct Pause<W> {
    pub(crate) waiter: W,
    pub(crate) misses: u32,
}

impl<'a, R: Wait, S: Holding> Pause<Thread<'a, R, S>> {
    /// The pauses of a call of this thread on these locks.
    #[inline]
    pub(crate) fn on(rt: &'a R, table: &'a Locks<S>) -> Self
        ensures misses { result.misses ≡ 0 }
        ensures table { result.waiter.table.now.table_id ≡ table.now.table_id }
    {
        let waiter = Thread {
            rt,
            table,
            backoff: Backoff::new(),
        };
        Pause { waiter, misses: 0 }
    }
}

impl<W: Waiter> Pause<W> {
    /// Rests, after a try that met this lock: by the number of misses before it.
    #[cold]
    #[inline(never)]
    pub(crate) fn wait(&mut self, busy: Busy)
        requires part { busy.lock ≤ MOST_THREADS }
        requires within { place busy.lock < W.words self.old.waiter }
        ensures words { W.words self.new.waiter ≡ W.words self.old.waiter }
        ensures misses { self.new.misses ≡ min (self.old.misses + 1) most_misses }
        ensures rested { W.rested self.old.waiter
            (rest_after self.old.misses busy.lock busy.by) self.new.waiter }
    {
        self.waiter.rest(rest_of_wait(self.misses, busy));
        self.misses = self.misses.saturating_add(1);
    }
}

// What comes after so many tries in vain and one more, which met this lock.
fn rest_of_wait(misses: u32, busy: Busy) -> Rest
    requires part { busy.lock ≤ MOST_THREADS }
    ensures rest { result ≡ rest_after misses busy.lock busy.by }
{
    if misses < MISSES_AWAKE {
        return Rest::Snooze;
    }
    Rest::Sleep {
        word: busy.lock * STRIDE,
        expected: busy.by.wrapping_add(1),
        micros: NAP,
    }
}
