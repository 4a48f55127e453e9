//! That a queue gives its memory back when it is let go, which no contract sees.
//!
//! Its allocator is an arena, which counts the blocks that are out and is not cleared while one is.

use bumpalo::Bump;
use klsm_parts::Queue;
use std::mem;

// Makes a queue whose shared part gets several blocks, loses some of its items, and is let go.
fn goes(arena: &Bump) -> Option<()> {
    let mut queue: Queue<64, 21, &Bump> = Queue::new(arena, 2);
    for number in 0..100u64 {
        queue.insert(number * 7 % 101, number).ok()?;
    }
    for _ in 0..30 {
        queue.delete_min()?;
    }
    Some(())
}

#[test]
fn a_queue_that_is_let_go_keeps_no_block(rt: HostRuntime) {
    let mut arena = Bump::new(rt.alloc());
    assert!(rt; goes(&arena) == Some(()));
    assert!(rt; arena.reset().is_ok());
}

// Makes a queue of so many items in large blocks, of which a union is under way or not, and lets it go.
fn goes_with_unions(arena: &Bump, count: u64) -> Option<()> {
    let mut queue: Queue<1024, 21, &Bump> = Queue::new(arena, 1024);
    for number in 0..count {
        queue
            .insert(number.wrapping_mul(7919) % 100_003, number)
            .ok()?;
    }
    for _ in 0..500 {
        queue.delete_min()?;
    }
    Some(())
}

#[test]
fn a_queue_that_is_let_go_keeps_no_block_of_a_union(rt: HostRuntime) {
    let mut arena = Bump::new(rt.alloc());
    for count in 0..20 {
        assert!(rt; goes_with_unions(&arena, 3_000 + count * 300) == Some(()));
        assert!(rt; arena.reset().is_ok());
    }
}

// Takes a block, which is never given back.
fn keeps(arena: &Bump) -> Option<()> {
    mem::forget(Vec::<u64, _>::with_capacity(arena, 4).ok()?);
    Some(())
}

#[test]
fn a_block_that_is_kept_is_seen(rt: HostRuntime) {
    let mut arena = Bump::new(rt.alloc());
    assert!(rt; keeps(&arena) == Some(()));
    assert!(rt; arena.reset().is_err());
}
