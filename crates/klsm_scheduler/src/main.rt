//! A machine does jobs one after another, and each should be done by its deadline. A queue says which job is next: the most
//! urgent one.
#![tactic(auto)]

ghost use Rattle.std.specs.Prelude.{◌≡◌, IfOk};
ghost use Rattle.klsm_parts.specs.Queues.{items_of};

use klsm_parts::{LsmError, Queue};
use klsm_run::Item;
use std::alloc::{AllocError, Global};
use std::io;

/// The jobs: by which minute each should be done, and how many minutes it takes.
static JOBS: [(u64, u64); 8] = [
    (30, 8),
    (75, 20),
    (12, 5),
    (20, 7),
    (80, 4),
    (45, 10),
    (25, 3),
    (60, 15),
];

fn main(rt: HostRuntime) -> io::Result<()> {
    println!(rt; "The most urgent job first:")?;
    work(&rt)
}

/// Does all jobs, and prints when each is done.
fn work<R: Print + AllocGlobal>(rt: &R) -> io::Result<()> {
    let waiting = match waiting_jobs(rt.alloc()) {
        Ok(waiting) => waiting,
        Err(why) => return println!(rt; "not all jobs can wait: {why:?}"),
    };
    let mut minute = 0u64;
    for job in &order_of(rt.alloc(), waiting)? {
        minute = minute.saturating_add(job.load);
        let late = minute.saturating_sub(job.key);
        println!(rt; "  due {}, done {minute}, {late} late", job.key)?;
    }
    Ok(())
}

/// The queue of all jobs: the deadline is the key, and the duration what an item carries.
fn waiting_jobs(alloc: Global) -> Result<Queue<64, 21>, LsmError> {
    let mut waiting = Queue::new(alloc, 3);
    for (deadline, duration) in &JOBS {
        waiting.insert(*deadline, *duration)?;
    }
    Ok(waiting)
}

/// The jobs in the order in which the machine does them: each of the waiting ones, the most urgent first.
fn order_of(alloc: Global, mut waiting: Queue<64, 21>) -> Result<Vec<Item>, AllocError>
    ensures { IfOk result (λ order. order.items ≡ items_of waiting) }
{
    let mut order = Vec::new(alloc);
    while let Some(job) = waiting.delete_min() {
        order.push(job)?;
    }
    Ok(order)
}
