//! What a steal moves, and what it leaves.

use crate::queues::queue_of;
use klsm_parts::{Local, steal};
use klsm_test_support::has_blocks;
use std::alloc::Global;

// What an empty own part may have, and how many items may move to it.
#[derive(Clone, Copy)]
struct Room {
    k: usize,
    most: usize,
}

// Whether so many items of a part of some keys move to an empty one, and both parts then have these blocks.
fn moves(
    alloc: Global,
    keys: &[u64],
    room: Room,
    count: usize,
    moved: &[&[u64]],
    left: &[&[u64]],
) -> Option<bool> {
    let mut victim = queue_of(alloc, 8, keys)?.into_parts().0;
    let mut own: Local<64> = Local::new(room.k.min(64));
    let answer = steal(&mut own, &mut victim, room.most);
    let moves = has_blocks(own.lsm(), moved) && has_blocks(victim.lsm(), left);
    Some(answer == count && moves)
}

// Half of the victim's items, rounded up; as many as may move; as many as there is room for; none of none.
#[test]
fn the_least_items_move(rt: HostRuntime) {
    let table: [(&[u64], usize, usize, usize, &[&[u64]], &[&[u64]]); 5] = [
        (&[7, 5, 3], 8, 9, 2, &[&[3, 5]], &[&[7]]),
        (&[6, 4, 2, 1], 8, 1, 1, &[&[1]], &[&[2, 4, 6]]),
        (
            &[1, 2, 3, 4, 5, 6, 7, 8],
            3,
            9,
            3,
            &[&[1, 2], &[3]],
            &[&[4, 5, 6, 7, 8]],
        ),
        (&[4], 8, 0, 0, &[], &[&[4]]),
        (&[], 8, 9, 0, &[], &[]),
    ];
    for (keys, k, most, count, moved, left) in table {
        let room = Room { k, most };
        assert!(rt; moves(rt.alloc(), keys, room, count, moved, left) == Some(true));
    }
}
