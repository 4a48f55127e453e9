//! Drawn instances, whose best selection is found by a plain loop over all.
ghost use Rattle.klsm_parts.specs.Limit.{IsLevelCount};

use klsm_board::Open;
use klsm_knapsack::{Instance, Listeners, SearchOptions, solve_in_turn, solve_to_the_end};
use klsm_test_support::add_words;
use klsm_tool::Silent;
use rand_core::{Rng, SeedableRng};
use rand_pcg::Pcg32;
use std::alloc::Global;
use std::sync::Wait;
use std::thread::Threads;

// Adds the rows of up to 12 things.
fn add_drawn(text: &mut Vec<u8>, mix: &mut Pcg32) -> Option<()> {
    add_words(text, &[("capacity,", mix.next_u64() % 60)], "\n")?;
    for _ in 0..mix.next_u64() % 13 {
        let value = 1 + mix.next_u64() % 100;
        let weight = 1 + mix.next_u64() % 20;
        add_words(text, &[("", value), (",", weight)], "\n")?;
    }
    Some(())
}

fn drawn(alloc: Global, seed: u64) -> Option<Vec<u8>> {
    let mut text = Vec::new(alloc);
    add_drawn(&mut text, &mut Pcg32::seed_from_u64(seed))?;
    Some(text)
}

// The value of a selection, or none where it does not fit.
fn value_of(instance: &Instance, picks: u64) -> Option<u64> {
    let mut value: u64 = 0;
    let mut weight: u64 = 0;
    for i in 0..instance.len() {
        if (picks >> i) % 2 == 1 {
            value = value.saturating_add(instance.value(i));
            weight = weight.saturating_add(instance.weight(i));
        }
    }
    if weight <= instance.capacity() {
        Some(value)
    } else {
        None
    }
}

fn best_value(instance: &Instance) -> u64 {
    let mut best = 0;
    for picks in 0..1u64 << instance.len() {
        if let Some(value) = value_of(instance, picks) {
            best = best.max(value);
        }
    }
    best
}

// Whether a selection has the best value, and it is told.
fn is_best(instance: &Instance, best: u64, value: u64, picks: u64) -> bool {
    value == best && value_of(instance, picks) == Some(best)
}

// Whether the search in one thread gives such a selection.
fn agrees_in_turn(instance: &Instance, best: u64) -> bool {
    let found = solve_in_turn(instance);
    is_best(instance, best, found.value, found.picks)
}

// Whether one by so many threads does at this k, on a board of so many levels.
fn agrees<const LEVELS: usize>(
    rt: &(impl Threads + Wait + Sync),
    alloc: Global,
    instance: &Instance,
    best: u64,
    board: (usize, usize),
) -> bool
    requires { IsLevelCount LEVELS }
{
    let (threads, k) = board;
    let listeners = Listeners {
        gate: &Open,
        progress: &Silent,
    };
    let options = SearchOptions::new(threads, k, 4);
    match solve_to_the_end::<_, _, LEVELS>(rt, alloc, instance, &options, &listeners) {
        Ok(found) => is_best(instance, best, found.value, found.picks),
        Err(_) => false,
    }
}

// Members and k of the boards.
const BOARDS: &[(usize, usize)] = &[
    (1, 0),
    (1, 1),
    (1, 16),
    (2, 0),
    (2, 1),
    (2, 16),
    (4, 0),
    (4, 1),
    (4, 16),
];

// Whether all searches of an instance give a selection of the best value, also those that find no room on
// a board of two levels.
fn agree(rt: &(impl Threads + Wait + Sync), alloc: Global, instance: &Instance) -> bool {
    let best = best_value(instance);
    for board in BOARDS {
        if !agrees::<21>(rt, alloc, instance, best, *board)
            || !agrees::<2>(rt, alloc, instance, best, *board)
        {
            return false;
        }
    }
    agrees_in_turn(instance, best)
}

// The same of a drawn one.
fn agree_on_drawn(rt: &(impl Threads + Wait + Sync), alloc: Global, seed: u64) -> Option<bool> {
    let text = drawn(alloc, seed)?;
    let instance = Instance::read(alloc, text.as_slice()).ok()?;
    Some(agree(rt, alloc, &instance))
}

#[test]
fn searches_agree_with_a_plain_loop(rt: HostRuntime) {
    for seed in 0..200 {
        assert!(rt; agree_on_drawn(&rt, rt.alloc(), seed) == Some(true));
    }
}
