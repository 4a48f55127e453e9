//! What a union leaves behind.
use crate::SharedRun;
use crate::halves::RunTaker;
use std::alloc::Allocator;

/// The two runs that became one, and the end that took it. Their memory is freed when this is dropped, unless the
/// worker still has it, which then frees it.
#[derive(Drop)]
pub struct Spent<A: Allocator + Copy> {
    pub(crate) left: SharedRun<A>,
    pub(crate) right: SharedRun<A>,
    pub(crate) taker: RunTaker<A>,
}
