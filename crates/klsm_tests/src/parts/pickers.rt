//! What each picker answers, asked through the bound.
ghost use Rattle.std.specs.Prelude.{◌<◌};

use klsm_parts::{First, Last, Picker, random_of};

// One pick of any picker.
fn picked<P: Picker>(picker: &mut P, candidates: usize) -> usize
    requires { 0 < candidates }
    ensures { result < candidates }
{
    picker.pick(candidates)
}

// A picker of a caller's own, which promises only an index of a candidate.
#[derive(Drop)]
struct Middle;

impl Picker for Middle {
    fn pick(&mut self, candidates: usize) -> usize {
        candidates / 2
    }
}

#[test]
fn fixed_choices(rt: HostRuntime) {
    for (candidates, middle) in [(1, 0), (2, 1), (65, 32)] {
        assert!(rt; picked(&mut First, candidates) == 0);
        assert!(rt; picked(&mut Last, candidates) == candidates - 1);
        assert!(rt; picked(&mut Middle, candidates) == middle);
    }
}

// Whether the picks of a seed among 65 candidates are these.
fn picks_of(seed: u64, want: &[usize]) -> bool {
    let mut random = random_of(seed);
    for index in want {
        if picked(&mut random, 65) != *index {
            return false;
        }
    }
    true
}

// The numbers are those of PCG32's published algorithm, computed by another program.
#[test]
fn picks_of_a_seed(rt: HostRuntime) {
    assert!(rt; picks_of(7, &[8, 54, 13, 6, 29, 41, 14, 5]));
    assert!(rt; picks_of(8, &[37, 31, 12, 52, 51, 61, 53, 60]));
}

// A seed and a number that add up to more than 2^64 - 1 give a small seed.
#[test]
fn picks_of_a_seed_that_wraps(rt: HostRuntime) {
    let greatest = u64::MAX;
    assert!(rt; picks_of(greatest, &[0, 7, 38, 25, 14, 57, 31, 41]));
    assert!(rt; picks_of(greatest.wrapping_add(1), &[14, 44, 14, 41, 30, 42, 23, 35]));
    assert!(rt; picks_of(greatest.wrapping_add(8), &[8, 54, 13, 6, 29, 41, 14, 5]));
}

// Whether the picks of a seed are the same through a borrowed picker.
fn picks_twice(seed: u64) -> bool {
    let mut one = random_of(seed);
    let mut two = random_of(seed);
    for _ in 0..1000 {
        if picked(&mut one, 65) != picked(&mut &mut two, 65) {
            return false;
        }
    }
    one == two
}

#[test]
fn same_seed_same_picks(rt: HostRuntime) {
    assert!(rt; picks_twice(7));
}
