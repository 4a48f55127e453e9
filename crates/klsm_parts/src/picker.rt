//! Pickers, which choose among the candidates of a deletion.
ghost use Rattle.std.specs.Prelude.{◌≡◌, ⊤, ℕ, ◌-◌, ◌%◌, ◌<◌};
ghost use Rattle.rand_core.specs.Stream.{next_u64};
ghost use Rattle.klsm_parts.specs.Generators.{generator_of};

use rand_core::{Rng, SeedableRng};
use rand_pcg::Pcg32;
use std::marker::Model;

/// Chooses which candidate a deletion takes, where it takes none before that which its owner inserted.
///
/// A deletion from the shared part asks it once. A picker of a caller's own may leave `may_pick`
/// out, and then promises no more than an index of a candidate.
pub trait Picker {
    // Holds of the picker before a pick, the number of candidates, the index picked, and the picker
    // after.
    ghost may_pick: { Self → ℕ → ℕ → Self → Type 0 } = { λ _ _ _ _. ⊤ };

    /// The index of one of the candidates, which are counted from the least item.
    fn pick(&mut self, candidates: usize) -> usize
        requires some { 0 < candidates }
        ensures below { result < candidates }
        ensures picked { may_pick self.old candidates result self.new };
}

impl<P: Picker> Picker for &mut P {
    ghost may_pick = { λ before candidates index after.
        P.may_pick before.now candidates index after.now };

    #[inline]
    fn pick(&mut self, candidates: usize) -> usize {
        (**self).pick(candidates)
    }
}

/// Picks the least candidate, always.
#[derive(Clone, Copy, Debug, Default, PartialEq, Eq)]
pub struct First;

impl Picker for First {
    ghost may_pick = { λ _ _ index _. index ≡ 0 };

    #[inline]
    fn pick(&mut self, _candidates: usize) -> usize {
        0
    }
}

/// Picks the greatest candidate, always.
#[derive(Clone, Copy, Debug, Default, PartialEq, Eq)]
pub struct Last;

impl Picker for Last {
    ghost may_pick = { λ _ candidates index _. index ≡ candidates - 1 };

    #[inline]
    fn pick(&mut self, candidates: usize) -> usize {
        candidates - 1
    }
}

/// Picks by a generator of random numbers. A contract sees it as that generator.
///
/// A pick draws one `u64` and answers its remainder by the number `n` of candidates. Over an even
/// generator the chance of each candidate is then `1 / n` up to a bias of at most `n / 2^64` of it.
#[derive(Clone, Debug, PartialEq, Eq, Drop)]
pub struct Random<R> {
    generator: R,
}

impl<R> Model for Random<R> {
    ghost Value = { R };

    ghost view = { λ random. random.generator };

    ghost inverse = { λ generator. record { generator = generator } };
}

impl<R: Rng> Random<R> {
    /// Picks by this generator.
    pub fn new(generator: R) -> Self
        ensures { result ≡ generator }
    {
        Random { generator }
    }
}

impl<R: Rng> Picker for Random<R> {
    ghost may_pick = { λ before candidates index after.
        (index ≡ (next_u64 (R.stream before)).0 % candidates)
        × (R.stream after ≡ (next_u64 (R.stream before)).1) };

    #[inline]
    fn pick(&mut self, candidates: usize) -> usize {
        (self.generator.next_u64() % candidates as u64) as usize
    }
}

/// Picks by the PCG32 generator (O'Neill, "PCG: a family of simple fast space-efficient
/// statistically good algorithms for random number generation", 2014), at this seed. The same seed
/// gives the same picks.
pub fn random_of(seed: u64) -> Random<Pcg32>
    ensures { result ≡ generator_of seed }
{
    Random::new(Pcg32::seed_from_u64(seed))
}
