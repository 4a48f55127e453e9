//! Boards that are finished: the account, or the member that is missing. In the second case the board comes back, and
//! its members in the order given.
ghost use Rattle.klsm_parts.specs.Limit.{IsLevelCount};

use super::full::{FULL_FOR_TWO, NO_QUOTA};
use klsm_board::{Account, FinishError};
use klsm_run::Item;
use klsm_test_support::{Calls, Crew, MANY, Name, Step, all_go, loaded, refused};
use std::alloc::Global;
use std::sync::Wait;

// A new board after some steps.
fn after<const LEVELS: usize>(
    rt: &impl Wait,
    alloc: Global,
    threads: usize,
    k: usize,
    quota: u64,
    steps: &[Step],
) -> Option<Crew<LEVELS>>
    requires { IsLevelCount LEVELS }
{
    let mut crew = Crew::new(alloc, threads, k, quota).ok()?;
    all_go(rt, &mut crew, Calls::Waiting, steps).then_some(crew)
}

// The account. If the allocation is refused, the board and these members come back, and the board is finished again.
fn account_of<const LEVELS: usize>(
    alloc: Global,
    crew: Crew<LEVELS>,
    numbers: &[u32],
) -> Option<Account> {
    match crew.finish(alloc) {
        Ok(account) => Some(account),
        Err((FinishError::NoMemory, crew)) => finished_again(alloc, crew, numbers),
        Err(_) => None,
    }
}

// Finishes the board if these members came back.
fn finished_again<const LEVELS: usize>(
    alloc: Global,
    crew: Crew<LEVELS>,
    numbers: &[u32],
) -> Option<Account> {
    if !crew.are(numbers) {
        return None;
    }
    match crew.finish(alloc) {
        Ok(account) => Some(account),
        Err(_) => None,
    }
}

// Whether items have these names, in this order.
fn are(items: &[Item], names: &[Name]) -> bool {
    for (found, name) in items.iter().zip(names) {
        if *found != loaded(*name) {
            return false;
        }
    }
    items.len() == names.len()
}

// Whether so many items were inserted and deleted, and these are left.
fn has_totals(account: Account, counts: (u64, u64), names: &[Name]) -> bool {
    let Account {
        inserted,
        deleted,
        left,
    } = account;
    (inserted, deleted) == counts && are(left.as_slice(), names)
}

// Member 0 inserts 4. Member 1 inserts 6 and 2, and deletes the smaller one.
const BY_TWO: &[Step] = &[
    Step::Inserts((4, 0, 0)),
    Step::Inserts((6, 1, 0)),
    Step::Inserts((2, 1, 1)),
    Step::Deletes(1, Some((2, 1, 1))),
];

// The board after it was not finished for want of member 1, with both members in the other order.
fn without_one(alloc: Global, crew: Crew<21>) -> Option<Crew<21>> {
    let mut crew = crew;
    crew.leave()?;
    let mut crew = refused(alloc, crew, FinishError::Missing(1), &[0])?;
    crew.leave()?;
    crew.relieve();
    Some(crew)
}

fn two_come_back(rt: &impl Wait, alloc: Global) -> Option<bool> {
    let crew = without_one(alloc, after(rt, alloc, 2, 1, MANY, BY_TWO)?)?;
    let account = account_of(alloc, crew, &[1, 0])?;
    Some(has_totals(account, (3, 1), &[(4, 0, 0), (6, 1, 0)]))
}

#[test]
fn members_come_back_in_another_order(rt: HostRuntime) {
    assert!(rt; two_come_back(&rt, rt.alloc()) == Some(true));
}

// The account of a board of one member.
fn account_after<const LEVELS: usize>(
    rt: &impl Wait,
    alloc: Global,
    k: usize,
    quota: u64,
    steps: &[Step],
) -> Option<Account>
    requires { IsLevelCount LEVELS }
{
    account_of(alloc, after::<LEVELS>(rt, alloc, 1, k, quota, steps)?, &[0])
}

// A refused insertion is not counted.
fn counts_accepted(rt: &impl Wait, alloc: Global) -> Option<bool> {
    let full = account_after::<2>(rt, alloc, 2, MANY, FULL_FOR_TWO)?;
    let none = account_after::<21>(rt, alloc, 1, 0, NO_QUOTA)?;
    let left = [(3, 0, 2), (4, 0, 3), (5, 0, 4)];
    Some(has_totals(full, (5, 2), &left) && has_totals(none, (0, 0), &[]))
}

#[test]
fn an_account_counts_no_refused_insertion(rt: HostRuntime) {
    assert!(rt; counts_accepted(&rt, rt.alloc()) == Some(true));
}

// The board after it was not finished without both members, without member 0 and without member 1.
fn without_some(alloc: Global, crew: Crew<21>) -> Option<Crew<21>> {
    let mut crew = crew;
    crew.leave()?;
    crew.leave()?;
    let mut crew = refused(alloc, crew, FinishError::Missing(0), &[])?;
    crew.relieve();
    crew.leave()?;
    let mut crew = refused(alloc, crew, FinishError::Missing(0), &[1])?;
    crew.relieve();
    without_one_again(alloc, crew)
}

// The last of these refusals. Then both members are there.
fn without_one_again(alloc: Global, crew: Crew<21>) -> Option<Crew<21>> {
    let mut crew = refused(alloc, crew, FinishError::Missing(1), &[0])?;
    crew.leave()?;
    crew.relieve();
    Some(crew)
}

const ONE_ITEM: &[Step] = &[Step::Inserts((4, 0, 0))];

fn names_the_least_missing(rt: &impl Wait, alloc: Global) -> Option<bool> {
    let crew = after(rt, alloc, 2, 1, MANY, ONE_ITEM)?;
    let account = account_of(alloc, without_some(alloc, crew)?, &[1, 0])?;
    Some(has_totals(account, (1, 0), &[(4, 0, 0)]))
}

#[test]
fn the_least_missing_member_is_named(rt: HostRuntime) {
    assert!(rt; names_the_least_missing(&rt, rt.alloc()) == Some(true));
}
