//! The sizes that a board may have, and the members of a new board.

use klsm_board::{Board, MakeError};
use klsm_test_support::Made;
use std::alloc::Global;

// A new board, or why there is none.
fn made(alloc: Global, threads: usize, k: usize, quota: u64) -> Result<Made, MakeError> {
    let (board, members) = Board::<64, 21>::new(alloc, threads, k, quota)?;
    Ok(Made { board, members })
}

// Why there is no board of these sizes, if there is none.
fn refusal(alloc: Global, threads: usize, k: usize, quota: u64) -> Option<MakeError> {
    match made(alloc, threads, k, quota) {
        Ok(_made) => None,
        Err(why) => Some(why),
    }
}

const TOO_MANY: u64 = 281_474_976_710_657;

#[test]
fn sizes_are_judged_in_their_order(rt: HostRuntime) {
    assert!(rt; refusal(rt.alloc(), 0, 0, 1) == Some(MakeError::BadThreads));
    assert!(rt; refusal(rt.alloc(), 17, 65, 1) == Some(MakeError::BadThreads));
    assert!(rt; refusal(rt.alloc(), 16, 65, 1) == Some(MakeError::BadK));
    assert!(rt; refusal(rt.alloc(), 16, 64, TOO_MANY) == Some(MakeError::BadQuota));
    assert!(rt; refusal(rt.alloc(), 16, 64, TOO_MANY - 1) == None);
}

// Whether the members have the numbers from 0 on, and have done nothing.
fn are_new(made: &Made) -> bool {
    for (number, member) in made.members.iter().enumerate() {
        let counts = (member.inserted_count(), member.deleted_count());
        if member.number() as usize != number || counts != (0, 0) {
            return false;
        }
    }
    true
}

// Whether the largest board has its sizes and its members.
fn is_largest(alloc: Global) -> bool {
    match made(alloc, 16, 64, TOO_MANY - 1) {
        Ok(made) => {
            let board = &made.board;
            let sizes = (board.threads(), board.k(), board.quota());
            sizes == (16, 64, TOO_MANY - 1) && made.members.len() == 16 && are_new(&made)
        }
        Err(_why) => false,
    }
}

#[test]
fn sixteen_members_in_their_order(rt: HostRuntime) {
    assert!(rt; is_largest(rt.alloc()));
}
