//! The fewest steps from 1 to a number, where a step adds 1 or doubles: four threads, branch and bound.
#![tactic(auto)]

ghost use Rattle.klsm_board.specs.Boards.{IsOf};

use klsm_board::{Board, StandardBoard, StandardMember};
use klsm_parts::First;
use std::alloc::Global;
use std::sync::Wait;
use std::sync::atomic::{AtomicU64, Ordering};
use std::thread::Threads;
use std::{io, thread};

const TARGET: u64 = 1_003;

/// What the threads share beside the board.
#[derive(Drop)]
struct Search {
    // How many nodes were inserted and are not done yet. When it is 0, all is done; an answer `None` is
    // no sign of that, since another thread may be about to insert.
    open: AtomicU64,
    // The fewest steps found.
    least: AtomicU64,
    // How many nodes found no room.
    lost: AtomicU64,
}

/// A thread of the search, which is a member of the board.
#[derive(Drop)]
struct Worker<'a, R> {
    rt: &'a R,
    board: &'a StandardBoard,
    member: StandardMember,
    search: &'a Search,
    ghost of: { IsOf member board.now },
}

impl<R: Wait> Worker<'_, R> {
    /// Takes nodes, one of the least bounds first, and opens what follows, until no node is open.
    fn work(&mut self) {
        for _ in self.rt.forever() {
            if self.search.open.load(Ordering::SeqCst) == 0 {
                return;
            }
            let Some(item) = self.member.delete_min(self.rt, self.board, &mut First) else {
                continue;
            };
            if item.key >> 16 < self.search.least.load(Ordering::SeqCst) {
                let number = item.load & 0xffff_ffff;
                let steps = (item.load >> 32) + 1;
                self.open(number + 1, steps);
                self.open(number * 2, steps);
            }
            self.search.open.fetch_sub(1, Ordering::SeqCst);
        }
    }

    /// Inserts a node. Its number and the steps to it are the item's load. Its bound is the key, with the
    /// steps below it, the most first: nodes of one bound are many, and an item goes without the shared
    /// lock only where its key is less than that of each shared one.
    fn open(&mut self, number: u64, steps: u64) {
        if number == TARGET {
            self.search.least.fetch_min(steps, Ordering::SeqCst);
            return;
        }
        let bound = bound_of(number, steps);
        if number > TARGET || bound >= self.search.least.load(Ordering::SeqCst) {
            return;
        }
        self.search.open.fetch_add(1, Ordering::SeqCst);
        let key = bound << 16 | 0xffffu64.saturating_sub(steps);
        let load = steps << 32 | number;
        if self.member.insert(self.rt, self.board, key, load).is_err() {
            self.search.lost.fetch_add(1, Ordering::SeqCst);
            self.search.open.fetch_sub(1, Ordering::SeqCst);
        }
    }
}

/// What the thread of a member does.
fn take_part<R: Wait>(rt: &R, board: &StandardBoard, member: StandardMember, search: &Search)
    requires { IsOf member board.now }
{
    let is_first = member.number() == 0;
    let mut worker = Worker {
        rt,
        board,
        member,
        search,
    };
    if is_first {
        worker.open(1, 0);
        search.open.fetch_sub(1, Ordering::SeqCst);
    }
    worker.work();
}

/// What no way through a number that so many steps lead to is shorter than: it has to double so often.
fn bound_of(number: u64, steps: u64) -> u64 {
    let mut bound = steps;
    let mut reached = number;
    for _ in 0..64 {
        if reached >= TARGET {
            break;
        }
        reached = reached.saturating_mul(2);
        bound = bound.saturating_add(1);
    }
    bound
}

/// The fewest steps, as so many threads find them. `None` where a node found no room.
fn fewest<R: Threads + Wait + Sync>(
    rt: &R,
    alloc: Global,
    threads: usize,
) -> io::Result<Option<u64>> {
    let Ok((board, members)) = Board::with_refill(alloc, threads, 16, 1 << 40, 8) else {
        return Ok(None);
    };
    let search = Search {
        open: AtomicU64::new(1),
        least: AtomicU64::new(u64::MAX),
        lost: AtomicU64::new(0),
    };
    thread::map_vec(
        rt,
        members,
        &|member: StandardMember| {
            take_part(rt, &board, member, &search);
        },
    )?;
    let is_whole = search.lost.load(Ordering::SeqCst) == 0;
    Ok(is_whole.then_some(search.least.load(Ordering::SeqCst)))
}

fn main(rt: HostRuntime) -> io::Result<()> {
    match fewest(&rt, rt.alloc(), 4)? {
        Some(steps) => println!(rt; "{TARGET} is reached in {steps} steps"),
        None => println!(rt; "there was no room for all nodes"),
    }
}
