//! Eight people, eight tasks, and what each person would take for each task: who does which, at the least cost in all? Threads
//! search by branch and bound, over one board of open nodes.
#![tactic(auto)]

mod node;
mod worker;

use klsm_board::Board;
use std::alloc::Global;
use std::sync::Wait;
use std::sync::atomic::{AtomicU64, Ordering};
use std::thread::Threads;
use std::{io, thread};
use worker::{Search, Worker, workers_on};

fn main(rt: HostRuntime) -> io::Result<()> {
    for threads in [1, 2, 4] {
        match least_cost(&rt, rt.alloc(), threads)? {
            Some(cost) => println!(rt; "threads {threads}: the least cost is {cost}")?,
            None => println!(rt; "threads {threads}: there is no room for all open nodes")?,
        }
    }
    Ok(())
}

/// The least cost, as so many threads find it. `None` where the board had no room for a node.
fn least_cost<R: Threads + Wait + Sync>(
    rt: &R,
    alloc: Global,
    threads: usize,
) -> io::Result<Option<u64>> {
    // Each member keeps at most 16 nodes for itself, and a deletion that needs the shared lock brings up to
    // 8 more home.
    let Ok((board, members)) = Board::with_refill(alloc, threads, 16, 1 << 40, 8) else {
        return Ok(None);
    };
    let search = Search::new();
    let mut workers = workers_on(rt, alloc, &board, members, &search)?;
    if let Some(first) = workers.as_mut_slice().first_mut() {
        first.begin();
    }
    thread::map_vec(
        rt,
        workers,
        &|mut worker: Worker<R>| {
            worker.work();
            worker
        },
    )?;
    Ok(search.answer())
}
