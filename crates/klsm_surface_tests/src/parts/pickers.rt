//! The pick of each picker, by its trait.
ghost use Rattle.std.specs.Prelude.{◌<◌};

use klsm_parts::{First, Last, Picker, Random, random_of};
use rand_core::{Rng, SeedableRng};
use rand_pcg::Pcg32;

// One pick of any picker.
fn picked<P: Picker>(picker: &mut P, candidates: usize) -> usize
    requires { 0 < candidates }
    ensures { result < candidates }
{
    picker.pick(candidates)
}

#[test]
fn the_first_and_the_last(rt: HostRuntime) {
    for candidates in [1, 2, 65] {
        assert!(rt; picked(&mut First, candidates) == 0);
        assert!(rt; picked(&mut Last, candidates) == candidates - 1);
    }
}

// Whether each pick of a seed is the next number of its generator, modulo the number of candidates. One picker is made
// from the generator, and one from the seed.
fn follow_a_generator(seed: u64, picks: usize) -> bool {
    let mut generator = Pcg32::seed_from_u64(seed);
    let mut over_it = Random::new(Pcg32::seed_from_u64(seed));
    let mut of_seed: Random<Pcg32> = random_of(seed);
    for _ in 0..picks {
        let want = generator.next_u64() % 65;
        if picked(&mut over_it, 65) as u64 != want || picked(&mut of_seed, 65) as u64 != want {
            return false;
        }
    }
    true
}

#[test]
fn a_random_pick_is_a_number_of_its_generator(rt: HostRuntime) {
    assert!(rt; follow_a_generator(7, 1000));
}
