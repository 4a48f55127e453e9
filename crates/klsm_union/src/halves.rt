//! What a worker owes: the union of two runs.
use crate::SharedRun;
use klsm_handoff::{Blank, Giver, Known, Taker, Terms};
use klsm_run::HeapRun;
use std::alloc::Allocator;
use std::sync::Arc;

/// Two runs as clauses see them. It has no bytes.
#[derive(Drop)]
pub struct Halves<A: Allocator + Copy> {
    pub left: Known<SharedRun<A>>,
    pub right: Known<SharedRun<A>>,
}

impl<A: Allocator + Copy> Terms<Arc<HeapRun<A>, A>> for Halves<A> {
    ghost use Rattle.klsm_union.specs.Halves.{IsUnionOf};

    ghost met_by = { IsUnionOf };
}

/// The memory of the hand-off that a union wants.
pub type UnionBlank<A> = Blank<Arc<HeapRun<A>, A>, Halves<A>, A>;

pub(crate) type RunGiver<A> = Giver<Arc<HeapRun<A>, A>, Halves<A>, A>;

pub(crate) type RunTaker<A> = Taker<Arc<HeapRun<A>, A>, Halves<A>, A>;
