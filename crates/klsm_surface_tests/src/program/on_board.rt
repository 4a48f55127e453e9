//! A script over a board of the caller's, and how many items its members have inserted and deleted then.

use super::replay::{OWN_ORDER, OWN_ORDER_ANSWERS};
use klsm_board::Board;
use klsm_test_support::Made;
use klsm_tool::{End, Pick, Report, Settings, replay_on};

const LAST_OF_TWO: Settings = Settings {
    threads: 2,
    k: 1,
    pick: Pick::Last,
    seed: 1,
};

// How many items each of the two members has inserted and deleted.
fn counts_of(made: &Made) -> Option<[(u64, u64); 2]> {
    let zero = made.members.get(0)?;
    let one = made.members.get(1)?;
    Some([
        (zero.inserted_count(), zero.deleted_count()),
        (one.inserted_count(), one.deleted_count()),
    ])
}

// Whether the text, the report and the counts are right.
fn is_replayed(rt: &impl AllocGlobal) -> Option<bool> {
    let Ok((board, members)) = Board::new(rt.alloc(), 2, 1, 281_474_976_710_656) else {
        return None;
    };
    let mut made = Made { board, members };
    let mut text = Vec::new(rt.alloc());
    let report = replay_on(
        rt,
        OWN_ORDER,
        &mut text,
        &LAST_OF_TWO,
        &made.board,
        &mut made.members,
    );
    let want = Report {
        end: End::Done,
        written: OWN_ORDER_ANSWERS.len() as u64,
    };
    let is_answered = text.as_slice() == OWN_ORDER_ANSWERS && report == want;
    Some(is_answered && counts_of(&made)? == [(1, 0), (3, 1)])
}

#[test]
fn members_count_the_calls_of_their_rows(rt: HostRuntime) {
    assert!(rt; is_replayed(&rt) == Some(true));
}
