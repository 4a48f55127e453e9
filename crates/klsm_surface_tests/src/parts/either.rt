//! A part of either kind: the number of its items, the least item, and each item, block after block.
ghost use Rattle.std.specs.Prelude.{◌≤◌};

use super::pair::{Pair, pair_at};
use klsm_parts::Part;
use klsm_test_support::{Name, item, named};
use std::alloc::Global;

// Parts with this k, after these keys were put in.
fn pair_of(alloc: Global, k: usize, keys: &[u64]) -> Option<Pair>
    requires { k ≤ 64 }
{
    let mut pair = pair_at(alloc, k);
    for (number, key) in keys.iter().enumerate() {
        pair.insert(item(0, number as u64, *key))?;
    }
    Some(pair)
}

// Whether a part has these items and this least one.
fn has_items(part: &Part<64, 21>, names: &[Name], least: Name) -> bool {
    if part.len() != names.len() || part.is_empty() || part.least() != Some(named(least)) {
        return false;
    }
    for (index, name) in names.iter().enumerate() {
        if part.item_at(index) != named(*name) {
            return false;
        }
    }
    true
}

// The own part has the blocks 4, 6 and 5.
fn own_part_has_items(alloc: Global) -> Option<bool> {
    let pair = pair_of(alloc, 8, &[4, 6, 5])?;
    let items = [(4, 0, 0), (6, 0, 1), (5, 0, 2)];
    Some(has_items(&Part::Own(pair.own), &items, (4, 0, 0)))
}

// With k = 0 each item is a shared one. The blocks are 1, 3 and 2.
fn shared_part_has_items(alloc: Global) -> Option<bool> {
    let pair = pair_of(alloc, 0, &[3, 1, 2])?;
    let items = [(1, 0, 1), (3, 0, 0), (2, 0, 2)];
    Some(has_items(&Part::Common(pair.shared), &items, (1, 0, 1)))
}

#[test]
fn parts_of_either_kind(rt: HostRuntime) {
    assert!(rt; own_part_has_items(rt.alloc()) == Some(true));
    assert!(rt; shared_part_has_items(rt.alloc()) == Some(true));
}
