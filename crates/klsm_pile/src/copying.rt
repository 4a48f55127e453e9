//! The blocks of a pile, as an LSM of their own.
ghost use Rattle.std.specs.Prelude.{◌≡◌, ◌≤◌, length, IfOk};
ghost use Rattle.klsm_run.specs.Capacity.{heap_room};
ghost use Rattle.klsm_run.specs.Content.{sorted, IsAscending};
ghost use Rattle.klsm_lsm.specs.Limit.{IsLevelCount, limit_of};
ghost use Rattle.klsm_lsm.specs.Lsm.{content, IsLsm};
ghost use Rattle.klsm_pile.specs.Pieces.{at_level, every_item, blocks_below};
ghost use Rattle.klsm_pile.specs.Counting.{AreCounts};
ghost use Rattle.klsm_pile.specs.Front.{parts};

use crate::front::Front;
use crate::piece::Piece;
use crate::reading::append_block;
use klsm_lsm::Lsm;
use klsm_run::{FixedRun, HeapRun};
use std::alloc::{AllocError, Allocator};

/// All blocks, copied to an LSM in memory of `alloc`. No two of them become one there.
pub(crate) fn copy_blocks<const LEVELS: usize, A: Allocator + Copy, B: Allocator + Copy>(
    front: &Front<A>,
    pieces: &[Piece<A>],
    counts: &[usize],
    alloc: B,
) -> Result<Lsm<HeapRun<B>, LEVELS>, AllocError>
    requires levels { IsLevelCount LEVELS }
    requires slots { length counts.now ≡ LEVELS }
    requires counted { AreCounts counts.now (parts front.now.items pieces.now) }
    requires distinct { IsAscending (sorted (every_item (parts front.now.items pieces.now))) }
    requires few { length (every_item (parts front.now.items pieces.now)) ≤ heap_room }
    requires lawful { IsLsm (blocks_below LEVELS (parts front.now.items pieces.now)) }
    requires limit { length (content (blocks_below LEVELS (parts front.now.items pieces.now)))
        ≤ limit_of LEVELS heap_room }
    ensures { IfOk result (λ lsm. lsm ≡ blocks_below LEVELS (parts front.now.items pieces.now)) }
{
    let mut lsm = Lsm::new();
    let mut level = LEVELS;
    while level > 0 {
        level -= 1;
        if counts[level] != 0 {
            let run = copy_block(front, pieces, level, counts[level], alloc)?;
            let Ok(()) = lsm.absorb(run) else {
                unreachable!();
            };
        }
    }
    Ok(lsm)
}

// The items of a level, of which there are `count`, copied to a run.
fn copy_block<A: Allocator + Copy, B: Allocator + Copy>(
    front: &Front<A>,
    pieces: &[Piece<A>],
    level: usize,
    count: usize,
    alloc: B,
) -> Result<HeapRun<B>, AllocError>
    requires count { count ≡ length (at_level level (parts front.now.items pieces.now)) }
    requires distinct { IsAscending (sorted (every_item (parts front.now.items pieces.now))) }
    requires few { length (every_item (parts front.now.items pieces.now)) ≤ heap_room }
    ensures { IfOk result (λ run. run.items ≡ sorted (at_level level (parts front.now.items pieces.now))) }
{
    let Ok(mut items) = Vec::with_capacity(alloc, count) else {
        return Err(AllocError);
    };
    append_block(front, pieces, level, &mut items)?;
    let none = FixedRun::<1>::empty();
    let Ok(mut run) = HeapRun::copy_of_for(alloc, &none, count) else {
        return Err(AllocError);
    };
    run.unite_items(items.as_slice());
    Ok(run)
}
