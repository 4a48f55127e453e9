//! What each thread does, and what all of them share.
ghost use Rattle.std.specs.Prelude.{All};
ghost use Rattle.klsm_board.specs.Boards.{IsOf};

use crate::node::Node;
use klsm_board::{InsertError, StandardBoard, StandardMember};
use klsm_parts::First;
use std::alloc::{AllocError, Global};
use std::sync::Wait;
use std::sync::atomic::{AtomicBool, AtomicU64, Ordering};

/// What all threads of a search share beside the board.
#[derive(Drop)]
pub(crate) struct Search {
    // The least cost found.
    least: AtomicU64,
    // How many nodes were inserted and are not examined yet.
    open: AtomicU64,
    // Whether a node found no room.
    is_full: AtomicBool,
}

impl Search {
    pub(crate) fn new() -> Search {
        Search {
            least: AtomicU64::new(u64::MAX),
            open: AtomicU64::new(0),
            is_full: AtomicBool::new(false),
        }
    }

    /// The least cost, once all threads have ended. `None` where a node found no room.
    pub(crate) fn answer(&self) -> Option<u64> {
        if self.is_full.load(Ordering::SeqCst) {
            return None;
        }
        Some(self.least.load(Ordering::SeqCst))
    }

    // Whether a node is open, or will be.
    fn goes_on(&self) -> bool {
        self.open.load(Ordering::SeqCst) > 0 && !self.is_full.load(Ordering::SeqCst)
    }
}

/// A thread of a search, which is a member of the board.
#[derive(Drop)]
pub(crate) struct Worker<'a, R> {
    rt: &'a R,
    board: &'a StandardBoard,
    member: StandardMember,
    search: &'a Search,
    ghost of: { IsOf member board.now },
}

impl<R: Wait> Worker<'_, R> {
    /// Inserts the root.
    pub(crate) fn begin(&mut self) {
        if self.open(Node::root()).is_err() {
            self.search.is_full.store(true, Ordering::SeqCst);
        }
    }

    /// Examines nodes until none is open.
    pub(crate) fn work(&mut self) {
        for _ in self.rt.forever() {
            if !self.search.goes_on() {
                return;
            }
            let Some(item) = self.member.delete_min(self.rt, self.board, &mut First) else {
                continue;
            };
            let is_promising = Node::bound_in(item.key) < self.search.least.load(Ordering::SeqCst);
            if is_promising && self.split(Node::of(item.load)).is_err() {
                self.search.is_full.store(true, Ordering::SeqCst);
            }
            self.search.open.fetch_sub(1, Ordering::SeqCst);
        }
    }

    // Inserts the children of a node.
    fn split(&mut self, node: Node) -> Result<(), InsertError> {
        for task in 0..8 {
            if let Some(child) = node.with(task) {
                self.open(child)?;
            }
        }
        Ok(())
    }

    // Inserts a node, or notes its cost where everybody has a task.
    fn open(&mut self, node: Node) -> Result<(), InsertError> {
        if node.is_complete() {
            self.search.least.fetch_min(node.bound(), Ordering::SeqCst);
            return Ok(());
        }
        self.search.open.fetch_add(1, Ordering::SeqCst);
        self.member
            .insert(self.rt, self.board, node.key(), node.load())?;
        Ok(())
    }
}

/// A worker for each of these members.
pub(crate) fn workers_on<'a, R: Wait>(
    rt: &'a R,
    alloc: Global,
    board: &'a StandardBoard,
    mut members: Vec<StandardMember>,
    search: &'a Search,
) -> Result<Vec<Worker<'a, R>>, AllocError>
    requires { All (λ member. IsOf member board.now) members.items }
{
    let mut workers = Vec::new(alloc);
    for _ in 0..members.len() {
        let Some(member) = members.pop() else {
            return Ok(workers);
        };
        workers.push(Worker {
            rt,
            board,
            member,
            search,
        })?;
    }
    Ok(workers)
}
