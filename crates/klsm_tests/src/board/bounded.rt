//! Bounds: the least key of all live items, and how many live, by one thread and beside threads that delete.
ghost use Rattle.std.specs.Prelude.{All};
ghost use Rattle.klsm_board.specs.Boards.{IsOf};

use klsm_board::{Bound, Busy, StandardBoard, StandardMember};
use klsm_parts::Last;
use klsm_test_support::{Script, Step, passes};
use std::alloc::Global;
use std::sync::Wait;
use std::sync::atomic::{AtomicU64, Ordering};
use std::thread;
use std::thread::Threads;

const MANY: u64 = 10_000;

const BOUNDS: &[Script] = &[
    // Items of each part count, whoever asks, and those that were deleted do not.
    Script {
        threads: 3,
        k: 8,
        quota: MANY,
        steps: &[
            Step::Bounds(0, u64::MAX, u64::MAX, 0),
            Step::Inserts((5, 0, 0)),
            Step::Inserts((7, 1, 0)),
            Step::Inserts((3, 2, 0)),
            Step::Bounds(1, 3, u64::MAX, 3),
            Step::Deletes(2, Some((3, 2, 0))),
            Step::Bounds(2, 5, 3, 2),
            Step::Shares(0, 1),
            Step::Bounds(2, 5, 3, 2),
            Step::Inserts((9, 2, 1)),
            Step::Bounds(1, 5, 3, 3),
            Step::Deletes(1, Some((5, 0, 0))),
            Step::Bounds(0, 7, 3, 2),
            Step::Deletes(1, Some((7, 1, 0))),
            Step::Deletes(2, Some((9, 2, 1))),
            Step::Bounds(0, u64::MAX, 7, 0),
            Step::Counts(0, 1, 0),
            Step::Counts(1, 1, 2),
            Step::Counts(2, 2, 2),
        ],
    },
    // While one part is held, whichever it is, there is no bound, and no other part stays held.
    Script {
        threads: 3,
        k: 4,
        quota: MANY,
        steps: &[
            Step::Inserts((5, 0, 0)),
            Step::Holds(2, 0, 0, None),
            Step::CannotBound(0, Busy { lock: 0, by: 2 }),
            Step::PutsBack,
            Step::Holds(2, 1, 1, Some((5, 0, 0))),
            Step::CannotBound(0, Busy { lock: 1, by: 2 }),
            Step::CannotBound(1, Busy { lock: 1, by: 2 }),
            Step::Inserts((6, 1, 0)),
            Step::PutsBack,
            Step::Holds(2, 2, 1, Some((6, 1, 0))),
            Step::CannotBound(0, Busy { lock: 2, by: 2 }),
            Step::Inserts((4, 0, 1)),
            Step::PutsBack,
            Step::Holds(2, 3, 0, None),
            Step::CannotBound(1, Busy { lock: 3, by: 2 }),
            Step::Deletes(0, Some((4, 0, 1))),
            Step::Deletes(1, Some((6, 1, 0))),
            Step::PutsBack,
            Step::Bounds(2, 5, 4, 1),
            Step::Deletes(0, Some((5, 0, 0))),
        ],
    },
    // Without own parts all items are shared, and one of the greatest key lives too.
    Script {
        threads: 2,
        k: 0,
        quota: MANY,
        steps: &[
            Step::Inserts((u64::MAX, 0, 0)),
            Step::Bounds(1, u64::MAX, u64::MAX, 1),
            Step::Inserts((6, 1, 0)),
            Step::Bounds(0, 6, u64::MAX, 2),
            Step::Deletes(0, Some((6, 1, 0))),
            Step::Bounds(0, u64::MAX, 6, 1),
            Step::Deletes(1, Some((u64::MAX, 0, 0))),
            Step::Bounds(1, u64::MAX, 6, 0),
        ],
    },
    // What a flush moves is counted once.
    Script {
        threads: 1,
        k: 1,
        quota: MANY,
        steps: &[
            Step::Inserts((6, 0, 0)),
            Step::Inserts((8, 0, 1)),
            Step::Bounds(0, 6, u64::MAX, 2),
            Step::Inserts((2, 0, 2)),
            Step::Bounds(0, 2, u64::MAX, 3),
            Step::Deletes(0, Some((2, 0, 2))),
            Step::Bounds(0, 6, 2, 2),
        ],
    },
];

#[test]
fn bounds_are_of_all_parts(rt: HostRuntime) {
    for script in BOUNDS {
        assert!(rt; passes::<21>(&rt, rt.alloc(), script));
    }
}

// How many members insert and then delete, and how many items each of them inserts.
const WORKERS: u64 = 2;

const EACH: u64 = 2_000;

// How many members ask for bounds.
const READERS: u64 = 2;

// What the threads tell one another.
#[derive(Drop)]
struct Told {
    // How many have inserted all their items.
    ready: AtomicU64,
    // The greatest of the bounds found.
    least: AtomicU64,
    // How many deletions were answered.
    deleted: AtomicU64,
}

impl Told {
    fn new() -> Self {
        Told {
            ready: AtomicU64::new(0),
            least: AtomicU64::new(0),
            deleted: AtomicU64::new(0),
        }
    }

    // Waits until all items are there.
    fn wait_until_ready(&self, rt: &impl Wait) {
        for _ in rt.forever() {
            if self.ready.load(Ordering::SeqCst) == WORKERS {
                return;
            }
            thread::yield_now();
        }
    }
}

// The member of a thread.
#[derive(Drop)]
struct Player<'a, R> {
    rt: &'a R,
    board: &'a StandardBoard,
    member: StandardMember,
    told: &'a Told,
    ghost of: { IsOf member board.now },
}

impl<R: Wait> Player<'_, R> {
    // Inserts its items: whether all found room.
    fn insert_all(&mut self) -> bool {
        let mut all = true;
        for turn in 0..EACH {
            let key = 1 + turn * 7_919 % EACH;
            all = all && self.member.insert(self.rt, self.board, key, 0).is_ok();
        }
        all
    }

    // Deletes an item, if there is one: whether its key was not below a bound that was found before.
    fn delete(&mut self) -> Option<bool> {
        let least = self.told.least.load(Ordering::SeqCst);
        let item = self.member.delete_min(self.rt, self.board, &mut Last)?;
        self.told.deleted.fetch_add(1, Ordering::SeqCst);
        Some(item.key >= least)
    }

    // Inserts its items, and deletes once all are there until all are gone: whether all was right. It may find nothing
    // meanwhile, where a member that asks has the parts.
    fn work(&mut self) -> bool {
        let mut all = self.insert_all();
        self.told.ready.fetch_add(1, Ordering::SeqCst);
        self.told.wait_until_ready(self.rt);
        for _ in self.rt.forever() {
            if self.told.deleted.load(Ordering::SeqCst) == WORKERS * EACH {
                return all;
            }
            let right = self.delete() != Some(false);
            all = all && right;
        }
        false
    }

    // A bound: `None` where it is less than the one before, or counts more items than that or than are left.
    fn next_bound(&mut self, before: Bound) -> Option<Bound> {
        let gone = self.told.deleted.load(Ordering::SeqCst);
        let bound = self.member.bound(self.rt, self.board);
        let most = (WORKERS * EACH).saturating_sub(gone);
        let few = bound.items as u64 <= most && bound.items <= before.items;
        (few && bound.queue >= before.queue).then_some(bound)
    }

    // Asks for bounds until nothing lives, while others delete: whether none is less than the one before, or counts more.
    fn read(&mut self) -> bool {
        self.told.wait_until_ready(self.rt);
        let mut before = Bound {
            queue: 1,
            work: u64::MAX,
            items: usize::MAX,
        };
        for _ in 0..u64::MAX {
            let Some(bound) = self.next_bound(before) else {
                return false;
            };
            self.told.least.fetch_max(bound.queue, Ordering::SeqCst);
            if bound.items == 0 {
                return bound.queue == u64::MAX;
            }
            before = bound;
        }
        false
    }
}

// What a member does by its number: whether all was right.
fn plays<R: Wait>(rt: &R, board: &StandardBoard, member: StandardMember, told: &Told) -> bool
    requires { IsOf member board.now }
{
    let reads = u64::from(member.number()) < READERS;
    let mut player = Player {
        rt,
        board,
        member,
        told,
    };
    if reads { player.read() } else { player.work() }
}

// Lets each member play in a thread of its own.
fn play_all<R: Threads + Wait + Sync>(
    rt: &R,
    board: &StandardBoard,
    members: Vec<StandardMember>,
    told: &Told,
) -> Option<Vec<bool>>
    requires { All (λ member. IsOf member board.now) members.items }
{
    thread::map_vec(
        rt,
        members,
        &|member| -> bool
            requires { IsOf member board.now }
        { plays(rt, board, member, told) },
    )
    .ok()
}

// Whether all goes right where each own part has so many items at most.
fn all_play<R: Threads + Wait + Sync>(rt: &R, alloc: Global, k: usize) -> Option<bool> {
    let threads = (READERS + WORKERS) as usize;
    let (board, members) = StandardBoard::new(alloc, threads, k, MANY).ok()?;
    let all = play_all(rt, &board, members, &Told::new())?;
    Some(all.iter().all(|went| *went))
}

#[test]
fn bounds_only_rise_while_members_delete(rt: HostRuntime) {
    for k in [0, 4, 64] {
        assert!(rt; all_play(&rt, rt.alloc(), k) == Some(true));
    }
}
