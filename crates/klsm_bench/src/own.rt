//! What the locks of a board cost a member that meets no other.
ghost use Rattle.std.specs.Prelude.{◌<◌, ◌≤◌};
ghost use Rattle.klsm_bench.specs.declared.contenders.TheConstants.{GREATEST_K};

use crate::contenders::{Contender, GREATEST_K};
use crate::on_board::{OnBoard, board_of_one};
use crate::rounds::{Calls, ROUNDS, per_operation, time_of};
use crate::workloads::Workload;
use klsm_parts::{First, Queue};
use rand_core::SeedableRng;
use rand_pcg::Pcg32;
use std::io;
use std::sync::Wait;
use std::time::Clock;

// How often an own part is filled and emptied in one round.
const FILLINGS: usize = 1_000;

/// Prints what insertions into an own part that has room for them cost, and the deletions of its items, in a queue for one
/// thread and on a board of one member.
pub(crate) fn print<R: Print + Clock + AllocGlobal + Wait>(rt: &R, k: usize) -> io::Result<()>
    requires { k ≤ GREATEST_K }
{
    match time_own(rt, k)? {
        Some(own) => print_own(rt, k, own),
        None => println!(rt; "own {k}: no memory"),
    }
}

// What both take.
#[derive(Clone, Copy)]
struct Own {
    in_queue: Times,
    by_member: Times,
}

fn print_own<R: Print>(rt: &R, k: usize, own: Own) -> io::Result<()> {
    let calls = FILLINGS.wrapping_mul(k);
    println!(rt;
        "own-insertions {k} {} {}",
        per_operation(own.in_queue.filling, calls),
        per_operation(own.by_member.filling, calls)
    )?;
    println!(rt;
        "own-deletions {k} {} {}",
        per_operation(own.in_queue.draining, calls),
        per_operation(own.by_member.draining, calls)
    )
}

// Measures both. `None` where there is no memory for the board.
fn time_own<R: Clock + AllocGlobal + Wait>(rt: &R, k: usize) -> io::Result<Option<Own>>
    requires { k ≤ GREATEST_K }
{
    let Some((board, member)) = board_of_one(rt.alloc(), k) else {
        return Ok(None);
    };
    let mut on_board = OnBoard {
        rt,
        board: &board,
        member,
        picker: First,
    };
    Ok(Some(time_beside_queue(rt, &mut on_board, k)?))
}

fn time_beside_queue<B: Contender, R: Clock + AllocGlobal>(
    rt: &R,
    on_board: &mut B,
    k: usize,
) -> io::Result<Own>
    requires { k ≤ GREATEST_K }
{
    let mut queue: Queue<GREATEST_K, 21> = Queue::new(rt.alloc(), k);
    time_rounds(rt, &mut queue, on_board, k)
}

fn time_rounds<Q: Contender, B: Contender, R: Clock + AllocGlobal>(
    rt: &R,
    queue: &mut Q,
    on_board: &mut B,
    k: usize,
) -> io::Result<Own> {
    let mut draws = Pcg32::seed_from_u64(42);
    let mut own = Own {
        in_queue: Times::new(),
        by_member: Times::new(),
    };
    for round in 0..ROUNDS {
        for _ in 0..FILLINGS {
            let keys = Workload::Uniform.keys(rt.alloc(), &mut draws, 0, k)?;
            own.in_queue.add(rt, round, queue, keys.as_slice())?;
            own.by_member.add(rt, round, on_board, keys.as_slice())?;
        }
    }
    Ok(own)
}

// Nanoseconds of each round.
#[derive(Clone, Copy)]
struct Times {
    filling: [u128; ROUNDS],
    draining: [u128; ROUNDS],
}

impl Times {
    // No time in any round.
    fn new() -> Self {
        Times {
            filling: [0; ROUNDS],
            draining: [0; ROUNDS],
        }
    }

    // Adds to a round the times of the insertions of these keys, and of as many deletions. The own part has room for them, so
    // that none is refused.
    fn add<C: Contender, R: Clock>(
        &mut self,
        rt: &R,
        round: usize,
        contender: &mut C,
        keys: &[u64],
    ) -> io::Result<()>
        requires { round < 5 }
    {
        let filling = time_of(rt, contender, Calls::Fill(keys))?.unwrap_or(0);
        let draining = time_of(rt, contender, Calls::Drain(keys.len()))?.unwrap_or(0);
        self.filling[round] = self.filling[round].saturating_add(filling);
        self.draining[round] = self.draining[round].saturating_add(draining);
        Ok(())
    }
}
