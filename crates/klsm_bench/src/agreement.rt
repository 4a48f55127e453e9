//! The run whose output does not depend on time.

use crate::contenders::{Contender, GREATEST_K, Heap};
use crate::on_board::{OnBoard, board_of_one};
use crate::pair::Pair;
use crate::workloads::{WORKLOADS, Workload, fill};
use klsm_parts::{First, Picker, random_of};
use rand_core::SeedableRng;
use rand_pcg::Pcg32;
use std::alloc::{AllocError, Global};
use std::io;
use std::sync::Wait;

/// Prints, for each workload and several k, whether the queue gives what the heap gives, and whether a board
/// of one member gives that too, with each of two pickers.
pub(crate) fn print<R: Print + AllocGlobal + Wait>(rt: &R) -> io::Result<()> {
    for workload in WORKLOADS {
        print_queues(rt, *workload)?;
    }
    for workload in WORKLOADS {
        print_boards(rt, *workload)?;
    }
    Ok(())
}

fn print_queues<R: Print + AllocGlobal>(rt: &R, workload: Workload) -> io::Result<()> {
    for k in [8, 64, GREATEST_K] {
        let agreement = queue_agrees(rt.alloc(), workload, &mut Pair::new(rt.alloc(), k));
        print_row(rt, workload, k, "the queue", agreement)?;
    }
    Ok(())
}

// With one member each deletion is exact, whatever the picker.
fn print_boards<R: Print + AllocGlobal + Wait>(rt: &R, workload: Workload) -> io::Result<()> {
    let least = board_agrees(rt, rt.alloc(), workload, 64, First);
    print_row(
        rt,
        workload,
        64,
        "a board of one member that picks the least candidate",
        least,
    )?;
    let random = board_agrees(rt, rt.alloc(), workload, 64, random_of(1));
    print_row(
        rt,
        workload,
        64,
        "a board of one member that picks at random",
        random,
    )
}

fn print_row<R: Print>(
    rt: &R,
    workload: Workload,
    k: usize,
    name: &str,
    agreement: Option<bool>,
) -> io::Result<()> {
    print!(rt; "{} k {k}: ", workload.name())?;
    match agreement {
        Some(agrees) => println!(rt; "{name} gives the heap's keys: {agrees}"),
        None => println!(rt; "no memory"),
    }
}

// The keys that are inserted at first, and those of the workload.
#[derive(Drop)]
struct Keys {
    first: Vec<u64>,
    then: Vec<u64>,
}

impl Keys {
    fn new(alloc: Global, workload: Workload) -> Result<Self, AllocError> {
        let mut draws = Pcg32::seed_from_u64(42);
        Ok(Keys {
            first: workload.keys(alloc, &mut draws, 0, 500)?,
            then: workload.keys(alloc, &mut draws, 500, 1_000)?,
        })
    }
}

// Whether the keys of the queue are those of the heap in their order. Both are filled, and then everything is taken out again.
fn queue_agrees(alloc: Global, workload: Workload, pair: &mut Pair) -> Option<bool> {
    let keys = Keys::new(alloc, workload).ok()?;
    let exact = deleted_from(workload, &mut pair.heap, &keys)?;
    Some(deleted_from(workload, &mut pair.queue, &keys)? == exact)
}

// Whether the keys of a board of one member are those of a heap in their order.
fn board_agrees<R: Wait, P: Picker + Drop>(
    rt: &R,
    alloc: Global,
    workload: Workload,
    k: usize,
    picker: P,
) -> Option<bool> {
    let keys = Keys::new(alloc, workload).ok()?;
    let exact = deleted_from(workload, &mut Heap::new(alloc), &keys)?;
    Some(deleted_from_board(rt, alloc, workload, k, picker, &keys)? == exact)
}

// What a contender gave: a sum that depends on the order of the keys, and how many keys came in all.
#[derive(Clone, Copy, PartialEq, Eq)]
struct Deleted {
    sum: u64,
    count: u64,
}

fn deleted_from<C: Contender>(
    workload: Workload,
    contender: &mut C,
    keys: &Keys,
) -> Option<Deleted> {
    fill(contender, keys.first.as_slice())?;
    let mut sum = workload.run(contender, keys.then.as_slice())?;
    let mut count = 0u64;
    for _ in 0..=keys.first.len() {
        let Some(item) = contender.delete() else {
            break;
        };
        sum = sum.wrapping_mul(31).wrapping_add(item.key);
        count = count.wrapping_add(1);
    }
    Some(Deleted { sum, count })
}

// The same of a board of one member.
fn deleted_from_board<R: Wait, P: Picker + Drop>(
    rt: &R,
    alloc: Global,
    workload: Workload,
    k: usize,
    picker: P,
    keys: &Keys,
) -> Option<Deleted> {
    let Some((board, member)) = board_of_one(alloc, k) else {
        return None;
    };
    let mut on_board = OnBoard {
        rt,
        board: &board,
        member,
        picker,
    };
    deleted_from(workload, &mut on_board, keys)
}
