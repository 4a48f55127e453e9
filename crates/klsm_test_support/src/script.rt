//! Scripts of calls on a board, with the result of each.
ghost use Rattle.klsm_parts.specs.Limit.{IsLevelCount};

use crate::crew::Crew;
use crate::items::Name;
use klsm_board::{Bound, Busy, HoldError, InsertError, ShareError, TryInsertError, TryShareError};
use klsm_parts::First;
use klsm_run::{Item, Stamp};
use std::alloc::Global;
use std::sync::Wait;

/// As many insertions as a member may make.
pub const MANY: u64 = 281_474_976_710_656;

/// The item of a name. Its load is one more than its number.
pub fn loaded((key, owner, number): Name) -> Item {
    Item {
        key,
        stamp: Stamp { owner, number },
        load: number.saturating_add(1),
    }
}

/// A call, and its result. A member is named by its number.
#[derive(Clone, Copy)]
pub enum Step {
    /// The owner of an item inserts it.
    Inserts(Name),
    /// A member that inserts a key is refused.
    IsRefused(u32, u64, TryInsertError),
    /// A member deletes an item, or finds none.
    Deletes(u32, Option<Name>),
    /// The same by a deletion behind which no items move.
    DeletesAlone(u32, Option<Name>),
    /// A member that deletes meets a lock that is held.
    Misses(u32, Busy),
    /// A member shares so many items.
    Shares(u32, usize),
    /// A member that shares is refused.
    KeepsAll(u32, TryShareError),
    /// A member finds this least key of all live items, this one of all that members work at, and so many items.
    Bounds(u32, u64, u64, usize),
    /// A member that asks for a bound misses a lock.
    CannotBound(u32, Busy),
    /// A member works at no item any more.
    Rests(u32),
    /// A member that would misses its own lock.
    CannotRest(u32, Busy),
    /// A member balances with a victim, and at most so many items may move: whether some did.
    Balances(u32, u32, usize, bool),
    /// A member that balances misses a lock.
    CannotBalance(u32, u32, Busy),
    /// The last member that holds no part has this number. It holds a part with so many items and this least one.
    Holds(u32, usize, usize, Option<Name>),
    /// The last member that holds no part cannot hold this one.
    CannotHold(usize, HoldError),
    /// The member that holds a part puts it back.
    PutsBack,
    /// The member that holds a part is dropped while it does.
    DropsHeld,
    /// The last member that holds no part is dropped.
    DropsMember,
    /// A member has made so many insertions and deletions.
    Counts(u32, u64, u64),
}

/// The threads, k and the quota of a board, and the calls on it.
pub struct Script {
    pub threads: usize,
    pub k: usize,
    pub quota: u64,
    pub steps: &'static [Step],
}

/// Which calls of a member a script is run by.
#[derive(Clone, Copy, PartialEq, Eq)]
pub enum Calls {
    /// Those that wait for nobody.
    Trying,
    /// Those that may wait for a lock, except if a lock that they need is held.
    Waiting,
}

// An insertion that may wait, as one that waits for nobody.
fn as_tried(answer: Result<Stamp, InsertError>) -> Result<Stamp, TryInsertError> {
    match answer {
        Ok(stamp) => Ok(stamp),
        Err(InsertError::Spent) => Err(TryInsertError::Spent),
        Err(InsertError::Full) => Err(TryInsertError::Full),
        Err(InsertError::NoMemory) => Err(TryInsertError::NoMemory),
    }
}

// The result of a member's insertion of a key.
fn insert<const LEVELS: usize>(
    rt: &impl Wait,
    crew: &mut Crew<LEVELS>,
    calls: Calls,
    member: u32,
    key: u64,
) -> Option<Result<Stamp, TryInsertError>> {
    let index = member as usize;
    let load = crew.counts(index)?.0.saturating_add(1);
    match calls {
        Calls::Trying => crew.try_insert(index, key, load),
        Calls::Waiting => Some(as_tried(crew.insert(rt, index, key, load)?)),
    }
}

// The result of a member's deletion.
fn delete<const LEVELS: usize>(
    rt: &impl Wait,
    crew: &mut Crew<LEVELS>,
    calls: Calls,
    member: u32,
) -> Option<Result<Option<Item>, Busy>> {
    let index = member as usize;
    match calls {
        Calls::Trying => crew.try_delete_min(index, &mut First),
        Calls::Waiting => Some(Ok(crew.delete_min(rt, index)?)),
    }
}

// Whether a member's insertion of a key ends so. If a lock is held, a call that may wait would never end.
fn inserts<const LEVELS: usize>(
    rt: &impl Wait,
    crew: &mut Crew<LEVELS>,
    calls: Calls,
    (member, key): (u32, u64),
    want: Result<Stamp, TryInsertError>,
) -> bool {
    let calls = match want {
        Err(TryInsertError::Busy(_busy)) => Calls::Trying,
        _ => calls,
    };
    insert(rt, crew, calls, member, key) == Some(want)
}

// Whether a member's deletion ends so.
fn deletes<const LEVELS: usize>(
    rt: &impl Wait,
    crew: &mut Crew<LEVELS>,
    calls: Calls,
    member: u32,
    want: Result<Option<Item>, Busy>,
) -> bool {
    let calls = if want.is_ok() { calls } else { Calls::Trying };
    delete(rt, crew, calls, member) == Some(want)
}

// The result of a deletion behind which no items move. `None` also if it meets a lock that is held.
fn delete_alone<const LEVELS: usize>(
    rt: &impl Wait,
    crew: &mut Crew<LEVELS>,
    calls: Calls,
    member: u32,
) -> Option<Option<Item>> {
    let index = member as usize;
    match calls {
        Calls::Trying => crew.try_delete_min_alone(index, &mut First)?.ok(),
        Calls::Waiting => crew.delete_min_alone(rt, index),
    }
}

// A sharing that may wait, as one that waits for nobody.
fn as_tried_share(answer: Result<usize, ShareError>) -> Result<usize, TryShareError> {
    match answer {
        Ok(count) => Ok(count),
        Err(ShareError::Full) => Err(TryShareError::Full),
        Err(ShareError::NoMemory) => Err(TryShareError::NoMemory),
    }
}

// Whether a member's sharing ends so. If a lock is held, a call that may wait would never end.
fn shares<const LEVELS: usize>(
    rt: &impl Wait,
    crew: &mut Crew<LEVELS>,
    calls: Calls,
    member: u32,
    want: Result<usize, TryShareError>,
) -> bool {
    let index = member as usize;
    if calls == Calls::Waiting && !matches!(&want, Err(TryShareError::Busy(_))) {
        return match crew.share(rt, index) {
            Some(answer) => as_tried_share(answer) == want,
            None => false,
        };
    }
    crew.try_share(index) == Some(want)
}

// Whether a member's bound ends so, likewise.
fn bounds<const LEVELS: usize>(
    rt: &impl Wait,
    crew: &mut Crew<LEVELS>,
    calls: Calls,
    member: u32,
    want: Result<Bound, Busy>,
) -> bool {
    let index = member as usize;
    if calls == Calls::Waiting && want.is_ok() {
        return crew.bound(rt, index) == want.ok();
    }
    crew.try_bound(index) == Some(want)
}

// Whether a member's rest ends so, likewise.
fn rests<const LEVELS: usize>(
    rt: &impl Wait,
    crew: &mut Crew<LEVELS>,
    calls: Calls,
    member: u32,
    want: Result<(), Busy>,
) -> bool {
    let index = member as usize;
    if calls == Calls::Waiting && want.is_ok() {
        return crew.rest(rt, index).is_some();
    }
    crew.try_rest(index) == Some(want)
}

// Whether a member's balance with a victim ends so.
fn balances<const LEVELS: usize>(
    crew: &mut Crew<LEVELS>,
    (member, victim): (u32, u32),
    most: usize,
    want: Result<bool, Busy>,
) -> bool {
    crew.try_balance(member as usize, victim, most) == Some(want)
}

// Whether a try of the last member to hold a part ends so.
fn holds<const LEVELS: usize>(
    crew: &mut Crew<LEVELS>,
    lock: usize,
    want: Result<(), HoldError>,
) -> bool {
    crew.try_hold(lock) == Some(want)
}

// Whether a member has made so many insertions and deletions.
fn has_counts<const LEVELS: usize>(crew: &Crew<LEVELS>, member: u32, want: (u64, u64)) -> bool {
    crew.counts(member as usize) == Some(want)
}

// The item of that name, if there is one.
fn loaded_if_some(name: Option<Name>) -> Option<Item> {
    match name {
        Some(name) => Some(loaded(name)),
        None => None,
    }
}

// Whether a step has its result.
fn goes<const LEVELS: usize>(
    rt: &impl Wait,
    crew: &mut Crew<LEVELS>,
    calls: Calls,
    step: Step,
) -> bool {
    match step {
        Step::Inserts((key, owner, number)) => {
            inserts(rt, crew, calls, (owner, key), Ok(Stamp { owner, number }))
        }
        Step::IsRefused(member, key, why) => inserts(rt, crew, calls, (member, key), Err(why)),
        Step::Deletes(member, name) => deletes(rt, crew, calls, member, Ok(loaded_if_some(name))),
        Step::DeletesAlone(member, name) => {
            delete_alone(rt, crew, calls, member) == Some(loaded_if_some(name))
        }
        Step::Misses(member, busy) => deletes(rt, crew, calls, member, Err(busy)),
        Step::Shares(member, count) => shares(rt, crew, calls, member, Ok(count)),
        Step::KeepsAll(member, why) => shares(rt, crew, calls, member, Err(why)),
        Step::Bounds(member, queue, work, items) => {
            let want = Bound { queue, work, items };
            bounds(rt, crew, calls, member, Ok(want))
        }
        Step::CannotBound(member, busy) => bounds(rt, crew, calls, member, Err(busy)),
        Step::Rests(member) => rests(rt, crew, calls, member, Ok(())),
        Step::CannotRest(member, busy) => rests(rt, crew, calls, member, Err(busy)),
        Step::Balances(member, victim, most, moves) => {
            balances(crew, (member, victim), most, Ok(moves))
        }
        Step::CannotBalance(member, victim, busy) => balances(crew, (member, victim), 1, Err(busy)),
        Step::Holds(member, lock, len, least) => {
            holds(crew, lock, Ok(())) && crew.holds(member, lock, len, loaded_if_some(least))
        }
        Step::CannotHold(lock, why) => holds(crew, lock, Err(why)),
        Step::PutsBack => crew.put_back().is_some(),
        Step::DropsHeld => crew.drop_held().is_some(),
        Step::DropsMember => crew.drop_member().is_some(),
        Step::Counts(member, inserted, deleted) => has_counts(crew, member, (inserted, deleted)),
    }
}

/// Whether each step has its result.
pub fn all_go<const LEVELS: usize>(
    rt: &impl Wait,
    crew: &mut Crew<LEVELS>,
    calls: Calls,
    steps: &[Step],
) -> bool {
    for step in steps {
        if !goes(rt, crew, calls, *step) {
            return false;
        }
    }
    true
}

// The same on a new board.
fn all_go_on_new<const LEVELS: usize>(
    rt: &impl Wait,
    alloc: Global,
    script: &Script,
    calls: Calls,
) -> bool
    requires { IsLevelCount LEVELS }
{
    match Crew::<LEVELS>::new(alloc, script.threads, script.k, script.quota) {
        Ok(mut crew) => all_go(rt, &mut crew, calls, script.steps),
        Err(_) => false,
    }
}

/// Whether each step of a script has its result, by either kind of call.
pub fn passes<const LEVELS: usize>(rt: &impl Wait, alloc: Global, script: &Script) -> bool
    requires { IsLevelCount LEVELS }
{
    all_go_on_new::<LEVELS>(rt, alloc, script, Calls::Trying)
        && all_go_on_new::<LEVELS>(rt, alloc, script, Calls::Waiting)
}
