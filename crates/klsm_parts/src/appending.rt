//! How the items of a part are listed.
ghost use Rattle.std.specs.Prelude.{◌≡◌, ◌≤◌, ◌+◌, ◌++◌, length, IsOk, OnOk, vec_len, vec_capacity};
ghost use Rattle.klsm_run.specs.declared.item.Item.{Item};
ghost use Rattle.klsm_lsm.specs.Lsm.{content};

use klsm_lsm::Lsm;
use klsm_run::{Item, Run};
use std::alloc::{AllocError, Allocator};

/// Appends the items of an LSM to a list, block after block.
pub(crate) fn append_blocks<R: Run, const LEVELS: usize, B: Allocator>(
    lsm: &Lsm<R, LEVELS>,
    all: &mut Vec<Item, B>,
) -> Result<(), AllocError>
    ensures items { OnOk result (all.new.items ≡ all.old.items ++ content lsm.now) }
    ensures len { OnOk result (vec_len all.new ≡ vec_len all.old + length (content lsm.now)) }
    ensures capacity { vec_capacity all.old ≤ vec_capacity all.new }
    ensures succeeds { vec_len all.old + length (content lsm.now) ≤ vec_capacity all.old
        → IsOk result }
{
    for block in 0..lsm.blocks() {
        all.extend_from_slice(lsm.block(block).as_slice())?;
    }
    Ok(())
}
