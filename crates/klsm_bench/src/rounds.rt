//! How long sequences of calls take, on the heap and on the queue, in each round.
ghost use Rattle.std.specs.Prelude.{◌<◌};

use crate::contenders::Contender;
use crate::pair::Pair;
use crate::workloads::{Workload, drain, fill};
use std::io;
use std::time::{Clock, Instant};

/// How often each is measured.
pub(crate) const ROUNDS: usize = 5;

/// Nanoseconds of each round, on the heap and on the queue.
#[derive(Clone, Copy)]
pub(crate) struct Rounds {
    heap: [u128; ROUNDS],
    queue: [u128; ROUNDS],
}

/// What is timed.
#[derive(Clone, Copy)]
pub(crate) enum Calls<'a> {
    /// The insertions and deletions of a workload with these keys.
    Run(Workload, &'a [u64]),
    /// Insertions of these keys alone.
    Fill(&'a [u64]),
    /// So many deletions alone.
    Drain(usize),
}

impl Rounds {
    /// No time in any round.
    pub(crate) fn new() -> Self {
        Rounds {
            heap: [0; ROUNDS],
            queue: [0; ROUNDS],
        }
    }

    /// Makes the calls on both, one after the other, and adds their times to those of a round. `None` where one of them had no
    /// room.
    pub(crate) fn add<R: Clock>(
        &mut self,
        rt: &R,
        round: usize,
        pair: &mut Pair,
        calls: Calls,
    ) -> io::Result<Option<()>>
        requires { round < 5 }
    {
        let heap = time_of(rt, &mut pair.heap, calls)?;
        let queue = time_of(rt, &mut pair.queue, calls)?;
        Ok(self.add_times(round, heap, queue))
    }

    // Adds times to those of a round, where there are both.
    fn add_times(&mut self, round: usize, heap: Option<u128>, queue: Option<u128>) -> Option<()>
        requires { round < 5 }
    {
        let (heap, queue) = (heap?, queue?);
        self.heap[round] = self.heap[round].saturating_add(heap);
        self.queue[round] = self.queue[round].saturating_add(queue);
        Some(())
    }

    /// Prints the medians, in tenths of nanoseconds for each of so many operations.
    pub(crate) fn print<R: Print>(
        self,
        rt: &R,
        name: &str,
        items: usize,
        k: usize,
        operations: usize,
    ) -> io::Result<()> {
        println!(rt;
            "{name} {items} {k} {} {}",
            per_operation(self.heap, operations),
            per_operation(self.queue, operations)
        )
    }
}

/// Nanoseconds of calls on one of them. `None` where it had no room.
pub(crate) fn time_of<C: Contender, R: Clock>(
    rt: &R,
    contender: &mut C,
    calls: Calls,
) -> io::Result<Option<u128>> {
    let start = Instant::now(rt)?;
    let done = match calls {
        Calls::Run(workload, keys) => workload.run(contender, keys).is_some(),
        Calls::Fill(keys) => fill(contender, keys).is_some(),
        Calls::Drain(count) => drain(contender, count).is_some(),
    };
    let nanoseconds = start.elapsed(rt)?.as_nanos();
    Ok(done.then_some(nanoseconds))
}

/// The median of some rounds, in tenths of nanoseconds for each of so many operations.
pub(crate) fn per_operation(mut times: [u128; ROUNDS], operations: usize) -> u128 {
    times.sort_unstable();
    if operations == 0 {
        return 0;
    }
    times[ROUNDS / 2].saturating_mul(10) / operations as u128
}
