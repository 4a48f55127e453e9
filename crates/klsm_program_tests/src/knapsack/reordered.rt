//! Instances with the steepest things first, and answers given back in the order of the rows.

use klsm_knapsack::{Best, Instance, Reordered, solve_in_turn};
use klsm_test_support::add_words;
use rand_core::{Rng, SeedableRng};
use rand_pcg::Pcg32;
use std::alloc::Global;

fn reordered(alloc: Global, text: &[u8]) -> Option<Reordered> {
    Instance::read(alloc, text).ok()?.steepest_first(alloc).ok()
}

// Whether the things stand so, each by its value and its weight.
fn stand_so(instance: &Instance, things: &[(u64, u64)]) -> bool {
    let mut all = instance.len() == things.len();
    for (i, (value, weight)) in things.iter().enumerate() {
        if i < instance.len() {
            all &= instance.value(i) == *value && instance.weight(i) == *weight;
        }
    }
    all
}

// Whether the things of a text stand so once the steepest are first.
fn reorders(alloc: Global, text: &[u8], things: &[(u64, u64)]) -> bool {
    match reordered(alloc, text) {
        Some(steepest) => stand_so(steepest.instance(), things),
        None => false,
    }
}

#[test]
fn the_steepest_come_first(rt: HostRuntime) {
    assert!(rt; reorders(rt.alloc(), b"capacity,10\n", &[]));
    assert!(rt;
        reorders(
            rt.alloc(),
            b"capacity,10\n1,9\n60,5\n50,4\n70,6\n30,3\n",
            &[(50, 4), (60, 5), (70, 6), (30, 3), (1, 9)],
        )
    );
    // Of things as steep the heavier come first.
    assert!(rt;
        reorders(
            rt.alloc(),
            b"capacity,10\n2,1\n4,2\n6,3\n9,3\n2,1\n",
            &[(9, 3), (6, 3), (4, 2), (2, 1), (2, 1)],
        )
    );
    // The greatest products.
    assert!(rt;
        reorders(
            rt.alloc(),
            b"capacity,10\n999999,1000000000\n1000000,999999999\n1000000,1000000000\n",
            &[
                (1_000_000, 999_999_999),
                (1_000_000, 1_000_000_000),
                (999_999, 1_000_000_000)
            ],
        )
    );
}

// The picks of the original order.
fn restored(alloc: Global, text: &[u8], picks: u64) -> Option<u64> {
    let steepest = reordered(alloc, text)?;
    Some(steepest.restored(Best { value: 0, picks }).picks)
}

#[test]
fn picks_are_given_back_by_the_rows(rt: HostRuntime) {
    let text = b"capacity,10\n1,4\n1,3\n1,2\n1,1\n";
    for (picks, rows) in [(0, 0), (1, 8), (2, 4), (3, 12), (8, 1), (9, 9), (15, 15)] {
        assert!(rt; restored(rt.alloc(), text, picks) == Some(rows));
    }
}

// Adds the rows of 1 to 12 things, of few values and weights, so that many are as steep as others.
fn add_drawn(text: &mut Vec<u8>, mix: &mut Pcg32) -> Option<()> {
    add_words(text, &[("capacity,", mix.next_u64() % 20)], "\n")?;
    for _ in 0..mix.next_u64() % 13 {
        let value = 1 + mix.next_u64() % 6;
        let weight = 1 + mix.next_u64() % 6;
        add_words(text, &[("", value), (",", weight)], "\n")?;
    }
    Some(())
}

fn drawn(alloc: Global, seed: u64) -> Option<Vec<u8>> {
    let mut text = Vec::new(alloc);
    add_drawn(&mut text, &mut Pcg32::seed_from_u64(seed))?;
    Some(text)
}

// Whether a thing of this value and weight is no steeper than the one before it, nor heavier where it is
// as steep.
fn comes_after((value, weight): (u64, u64), (former_value, former_weight): (u64, u64)) -> bool {
    let before = former_value.wrapping_mul(weight);
    let behind = value.wrapping_mul(former_weight);
    behind < before || behind == before && weight <= former_weight
}

// Whether each thing does come after the one before it.
fn falls(instance: &Instance) -> bool {
    let mut former = (u64::MAX, 1);
    for i in 0..instance.len() {
        let thing = (instance.value(i), instance.weight(i));
        if i > 0 && !comes_after(thing, former) {
            return false;
        }
        former = thing;
    }
    true
}

// Whether the answer given back is one of the instance, and of the value of its own.
fn comes_back(alloc: Global, text: &[u8]) -> Option<bool> {
    let instance = Instance::read(alloc, text).ok()?;
    let steepest = instance.steepest_first(alloc).ok()?;
    let best = steepest.restored(solve_in_turn(steepest.instance()));
    let totals = instance.totals(best.picks);
    Some(
        falls(steepest.instance())
            && best.value == solve_in_turn(&instance).value
            && best.value == totals.value
            && totals.weight <= instance.capacity()
            && best.picks >> instance.len() == 0,
    )
}

#[test]
fn answers_come_back(rt: HostRuntime) {
    for seed in 0..200 {
        let told = match drawn(rt.alloc(), seed) {
            Some(text) => comes_back(rt.alloc(), text.as_slice()),
            None => None,
        };
        assert!(rt; told == Some(true));
    }
}
