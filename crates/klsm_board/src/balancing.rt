//! When a member balances, and with which other one.
ghost use Rattle.std.specs.Prelude.{◌≡◌, ◌≢◌, ◌+◌, ◌<◌, ◌≤◌, true, IfSome};
ghost use Rattle.klsm_run.specs.declared.limits.TheConstants.{MOST_THREADS};
ghost use Rattle.klsm_board.specs.Deleting.{victim_of};
ghost use Rattle.klsm_board.specs.Balancing.{after_deletion, after_turn, balancing_each, is_due, passed_in, victim_now};

use crate::spying::victim_at;

/// How many items a balance moves, at most.
pub const MOST_BALANCED: usize = 4;

/// Before each so-manyth of its deletions a member balances (`Member::try_balance`), with the others in turn. This
/// counts its deletions and says whose turn it is.
#[derive(Clone, Copy, Debug, PartialEq, Eq, Drop)]
pub struct Balancing {
    every: u32,
    // How many deletions come before the next balance.
    left: u32,
    // With how many of the others it has balanced in this round.
    passed: u32,
}

impl Balancing {
    /// Before each `every`-th deletion; with 0 never.
    pub fn each(every: u32) -> Balancing
        ensures { result ≡ balancing_each every }
    {
        Balancing {
            every,
            left: every.saturating_sub(1),
            passed: 0,
        }
    }

    /// The member to balance with now, if it is time and there is another one. Then it is the next one's turn.
    #[inline]
    pub fn next_victim(&mut self, number: u32, threads: usize) -> Option<u32>
        requires threads { threads ≤ MOST_THREADS }
        requires number { number < threads }
        ensures victim { result ≡ victim_now self.old number threads }
        ensures another { IfSome result (λ victim. (victim < threads) × (victim ≢ number)) }
        ensures turn { self.new ≡ after_turn self.old threads }
    {
        if self.every == 0 || self.left > 0 || threads < 2 {
            return None;
        }
        Some(self.turn(number, threads))
    }

    // The member whose turn it is, and then it is the next one's.
    fn turn(&mut self, number: u32, threads: usize) -> u32
        requires threads { threads ≤ MOST_THREADS }
        requires number { number < threads }
        requires due { is_due self.old threads ≡ true }
        ensures victim { result ≡ victim_of threads number (passed_in self.old threads + 1) }
        ensures another { (result < threads) × (result ≢ number) }
        ensures turn { self.new ≡ after_turn self.old threads }
    {
        let passed = if (self.passed as usize) + 1 < threads {
            self.passed
        } else {
            0
        };
        self.left = self.every;
        self.passed = passed + 1;
        victim_at(number as usize, threads, passed as usize + 1)
    }

    /// Counts a deletion that was answered.
    #[inline]
    pub fn count_deletion(&mut self)
        ensures { self.new ≡ after_deletion self.old }
    {
        self.left = self.left.saturating_sub(1);
    }
}
