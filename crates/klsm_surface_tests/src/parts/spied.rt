//! What a member that spies moves from a victim's part to its own, which is empty.

use super::pair::{Pair, pair_at};
use klsm_parts::{First, Local, spy};
use klsm_test_support::{has_blocks, item};
use std::alloc::Global;

// The keys that are put into a part of at most eight items, the number of deletions from it beside an empty shared
// part, the number of items that a spy moves then, and the blocks that it takes and leaves.
struct Row {
    keys: &'static [u64],
    takes: usize,
    count: usize,
    moved: &'static [&'static [u64]],
    left: &'static [&'static [u64]],
}

// The only item; the larger half of the only block, rounded up; the larger of two blocks; and nothing.
const ROWS: [Row; 4] = [
    Row {
        keys: &[4],
        takes: 0,
        count: 1,
        moved: &[&[4]],
        left: &[],
    },
    Row {
        keys: &[1, 2, 3, 4, 5, 6, 7, 8],
        takes: 3,
        count: 3,
        moved: &[&[6, 7, 8]],
        left: &[&[4, 5]],
    },
    Row {
        keys: &[1, 2, 3, 4, 5],
        takes: 0,
        count: 4,
        moved: &[&[1, 2, 3, 4]],
        left: &[&[5]],
    },
    Row {
        keys: &[],
        takes: 0,
        count: 0,
        moved: &[],
        left: &[],
    },
];

// Parts after these keys were put into the own one, and so many deletions.
fn pair_of(alloc: Global, keys: &[u64], takes: usize) -> Option<Pair> {
    let mut pair = pair_at(alloc, 8);
    for (number, key) in keys.iter().enumerate() {
        pair.insert(item(0, number as u64, *key))?;
    }
    for _ in 0..takes {
        let _taken = pair.take(0, &mut First)??;
    }
    Some(pair)
}

// Whether a search for the least item that the next call remembers finds it.
fn finds_least(part: &mut Local<64>) -> bool {
    let least = part.least();
    part.find_least() == least
}

// Whether so many items move, and both parts have these blocks. What the victim remembered before is void then.
fn is_spied(alloc: Global, row: &Row) -> Option<bool> {
    let mut pair = pair_of(alloc, row.keys, row.takes)?;
    let finds = finds_least(&mut pair.own);
    let mut own: Local<64> = Local::new(pair.own.k());
    let count = spy(&mut own, &mut pair.own);
    let finds_both = finds_least(&mut own) && finds_least(&mut pair.own);
    let moves = has_blocks(own.lsm(), row.moved) && has_blocks(pair.own.lsm(), row.left);
    Some(count == row.count && finds && finds_both && moves)
}

#[test]
fn a_spy_moves_the_largest_block_or_half_of_it(rt: HostRuntime) {
    for row in &ROWS {
        assert!(rt; is_spied(rt.alloc(), row) == Some(true));
    }
}
