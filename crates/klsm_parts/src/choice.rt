//! Pickers that are chosen while a program runs: by an option of a command, or by a caller in another language.
//!
//! `First`, `Last` and `Random` are types, so a program that is compiled with one of them pays nothing for it. A
//! `Choice` is any of the three, and tests at each pick which it is.
ghost use Rattle.std.specs.Prelude.{◌≡◌};
ghost use Rattle.klsm_parts.specs.Choices.{choice_by, may_choose};

use crate::picker::{First, Last, Picker, Random, random_of};
use rand_pcg::Pcg32;

/// Which candidate a deletion takes.
#[derive(Clone, Copy, Debug, PartialEq, Eq)]
pub enum Pick {
    /// The least.
    First,
    /// The greatest.
    Last,
    /// One drawn at random.
    Random,
}

/// The picker of one member.
#[derive(Drop)]
pub enum Choice {
    /// The least candidate.
    First,
    /// The greatest.
    Last,
    /// One drawn at random.
    Random(Random<Pcg32>),
}

impl Picker for Choice {
    ghost may_pick = { may_choose };

    fn pick(&mut self, candidates: usize) -> usize {
        match self {
            Choice::First => First.pick(candidates),
            Choice::Last => Last.pick(candidates),
            Choice::Random(random) => random.pick(candidates),
        }
    }
}

impl Choice {
    /// The picker of this kind. The seed is that of the numbers drawn, where it draws any.
    pub fn of(pick: Pick, seed: u64) -> Choice
        ensures { result ≡ choice_by pick seed }
    {
        match pick {
            Pick::First => Choice::First,
            Pick::Last => Choice::Last,
            Pick::Random => Choice::Random(random_of(seed)),
        }
    }
}
