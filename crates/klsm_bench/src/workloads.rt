//! The sequences of calls that are measured.

use crate::contenders::Contender;
use rand_core::Rng;
use rand_pcg::Pcg32;
use std::alloc::{AllocError, Allocator};

/// A sequence of insertions and deletions in turn.
#[derive(Clone, Copy, PartialEq, Eq)]
pub(crate) enum Workload {
    /// Keys at random, whatever was deleted.
    Uniform,
    /// The key that was deleted plus a random increment, as a simulation of events has it.
    Hold,
    /// Each key greater than all before.
    Ascending,
}

/// All of them.
pub(crate) const WORKLOADS: &[Workload] = &[Workload::Uniform, Workload::Hold, Workload::Ascending];

impl Workload {
    /// Its name in the output.
    pub(crate) fn name(self) -> &'static str {
        match self {
            Workload::Uniform => "uniform",
            Workload::Hold => "hold",
            Workload::Ascending => "ascending",
        }
    }

    /// Fresh keys, or increments of keys, after `before` others.
    pub(crate) fn keys<A: Allocator>(
        self,
        alloc: A,
        draws: &mut Pcg32,
        before: u64,
        count: usize,
    ) -> Result<Vec<u64, A>, AllocError> {
        let mut keys = Vec::with_capacity(alloc, count)?;
        for index in 0..count {
            let key = match self {
                Workload::Uniform => draws.next_u64() >> 33,
                Workload::Hold => draws.next_u64() >> 40,
                Workload::Ascending => before.wrapping_add(index as u64),
            };
            keys.push(key)?;
        }
        Ok(keys)
    }

    /// An insertion and a deletion for each key. The answer depends on each deleted key and on their order.
    pub(crate) fn run<C: Contender>(self, contender: &mut C, keys: &[u64]) -> Option<u64> {
        match self {
            Workload::Hold => delete_and_insert(contender, keys),
            Workload::Uniform | Workload::Ascending => insert_and_delete(contender, keys),
        }
    }
}

/// Inserts keys.
pub(crate) fn fill<C: Contender>(contender: &mut C, keys: &[u64]) -> Option<()> {
    for key in keys {
        contender.insert(*key, 0)?;
    }
    Some(())
}

/// Deletes so many keys.
pub(crate) fn drain<C: Contender>(contender: &mut C, count: usize) -> Option<()> {
    for _ in 0..count {
        contender.delete()?;
    }
    Some(())
}

fn insert_and_delete<C: Contender>(contender: &mut C, keys: &[u64]) -> Option<u64> {
    let mut sum = 0u64;
    for key in keys {
        contender.insert(*key, 0)?;
        sum = sum.wrapping_mul(31).wrapping_add(contender.delete()?.key);
    }
    Some(sum)
}

fn delete_and_insert<C: Contender>(contender: &mut C, increments: &[u64]) -> Option<u64> {
    let mut sum = 0u64;
    for increment in increments {
        let key = contender.delete()?.key;
        sum = sum.wrapping_mul(31).wrapping_add(key);
        contender.insert(key.wrapping_add(*increment), 0)?;
    }
    Some(sum)
}
