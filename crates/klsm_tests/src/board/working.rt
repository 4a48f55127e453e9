//! The items that members work at: the least of their keys beside that of what lives, by one thread and by threads that
//! insert what they make of the items that they delete.
ghost use Rattle.std.specs.Prelude.{All};
ghost use Rattle.klsm_board.specs.Boards.{IsOf};

use klsm_board::{Bound, Busy, StandardBoard, StandardMember};
use klsm_parts::Last;
use klsm_run::Item;
use klsm_test_support::{Script, Step, passes};
use std::alloc::Global;
use std::sync::Wait;
use std::sync::atomic::{AtomicU64, Ordering};
use std::thread;
use std::thread::Threads;

const MANY: u64 = 10_000;

const NONE: u64 = u64::MAX;

const WORK: &[Script] = &[
    // A member works at what it deleted last until it rests or finds nothing, and no other call changes that. Thread 1
    // spies on thread 2 at last.
    Script {
        threads: 3,
        k: 8,
        quota: MANY,
        steps: &[
            Step::Inserts((5, 0, 0)),
            Step::Inserts((3, 1, 0)),
            Step::Inserts((8, 2, 0)),
            Step::Inserts((9, 2, 1)),
            Step::Rests(0),
            Step::Bounds(0, 3, NONE, 4),
            Step::Deletes(1, Some((3, 1, 0))),
            Step::Bounds(0, 5, 3, 3),
            Step::Inserts((6, 1, 1)),
            Step::Shares(1, 1),
            Step::Bounds(1, 5, 3, 4),
            Step::Deletes(2, Some((6, 1, 1))),
            Step::Bounds(2, 5, 3, 3),
            Step::Deletes(2, Some((8, 2, 0))),
            Step::Bounds(0, 5, 3, 2),
            Step::Rests(1),
            Step::Bounds(1, 5, 8, 2),
            Step::DeletesAlone(0, Some((5, 0, 0))),
            Step::Bounds(1, 9, 5, 1),
            Step::Deletes(1, Some((9, 2, 1))),
            Step::Bounds(2, NONE, 5, 0),
            Step::DeletesAlone(0, None),
            Step::Bounds(2, NONE, 8, 0),
            Step::Rests(2),
            Step::Bounds(2, NONE, 9, 0),
            Step::Deletes(1, None),
            Step::Bounds(0, NONE, NONE, 0),
        ],
    },
    // What a member inserts while it works at an item may have a lesser key than all that lives, and none less than the
    // lesser of the two bounds.
    Script {
        threads: 2,
        k: 4,
        quota: MANY,
        steps: &[
            Step::Inserts((3, 0, 0)),
            Step::Inserts((9, 1, 0)),
            Step::Deletes(0, Some((3, 0, 0))),
            Step::Bounds(1, 9, 3, 1),
            Step::Inserts((4, 0, 1)),
            Step::Bounds(1, 4, 3, 2),
            Step::Inserts((7, 0, 2)),
            Step::Rests(0),
            Step::Bounds(1, 4, NONE, 3),
        ],
    },
    // A balance moves items, and nobody works at them.
    Script {
        threads: 2,
        k: 4,
        quota: MANY,
        steps: &[
            Step::Inserts((2, 0, 0)),
            Step::Inserts((6, 0, 1)),
            Step::Balances(1, 0, 4, true),
            Step::Bounds(0, 2, NONE, 2),
            Step::Deletes(1, Some((2, 0, 0))),
            Step::Bounds(0, 6, 2, 1),
            Step::Balances(1, 0, 4, true),
            Step::Bounds(0, 6, 2, 1),
        ],
    },
    // A rest needs the own part alone. A deletion that meets a lock leaves the item that its member works at.
    Script {
        threads: 3,
        k: 4,
        quota: MANY,
        steps: &[
            Step::Inserts((5, 0, 0)),
            Step::Deletes(0, Some((5, 0, 0))),
            Step::Holds(2, 1, 0, None),
            Step::CannotRest(0, Busy { lock: 1, by: 2 }),
            Step::Misses(0, Busy { lock: 1, by: 2 }),
            Step::Rests(1),
            Step::PutsBack,
            Step::Bounds(1, NONE, 5, 0),
            Step::Holds(2, 0, 0, None),
            Step::Misses(0, Busy { lock: 0, by: 2 }),
            Step::PutsBack,
            Step::Bounds(2, NONE, 5, 0),
            Step::Holds(2, 0, 0, None),
            Step::Rests(0),
            Step::PutsBack,
            Step::Bounds(1, NONE, NONE, 0),
            Step::Inserts((4, 2, 0)),
            Step::Deletes(2, Some((4, 2, 0))),
            Step::Holds(2, 3, 0, None),
            Step::CannotBound(0, Busy { lock: 3, by: 2 }),
            Step::PutsBack,
            Step::Bounds(0, NONE, 4, 0),
        ],
    },
];

#[test]
fn members_work_at_what_they_deleted_last(rt: HostRuntime) {
    for script in WORK {
        assert!(rt; passes::<21>(&rt, rt.alloc(), script));
    }
}

// How many members ask for bounds, and how many work.
const READERS: u64 = 2;

const WORKERS: u64 = 2;

// An item whose load is less has two children, whose loads are one more than its own.
const DEPTH: u64 = 10;

// What the threads tell one another.
#[derive(Drop)]
struct Told {
    // 1 once the first item was inserted.
    begun: AtomicU64,
    // How many items live, or are worked at.
    open: AtomicU64,
    // How many bounds were found, and the greatest of them.
    found: AtomicU64,
    least: AtomicU64,
}

impl Told {
    fn new() -> Self {
        Told {
            begun: AtomicU64::new(0),
            open: AtomicU64::new(0),
            found: AtomicU64::new(0),
            least: AtomicU64::new(0),
        }
    }

    // Waits until the first item is there.
    fn wait_until_begun(&self, rt: &impl Wait) {
        for _ in rt.forever() {
            if self.begun.load(Ordering::SeqCst) == 1 {
                return;
            }
            thread::yield_now();
        }
    }
}

// The member of a thread.
#[derive(Drop)]
struct Player<'a, R> {
    rt: &'a R,
    board: &'a StandardBoard,
    member: StandardMember,
    told: &'a Told,
    ghost of: { IsOf member board.now },
}

impl<R: Wait> Player<'_, R> {
    // Inserts an item, which is then open: whether it found room.
    fn insert(&mut self, key: u64, load: u64) -> bool {
        self.told.open.fetch_add(1, Ordering::SeqCst);
        let went = self.member.insert(self.rt, self.board, key, load).is_ok();
        if !went {
            self.told.open.fetch_sub(1, Ordering::SeqCst);
        }
        went
    }

    // Inserts the first item: whether it found room.
    fn begin(&mut self) -> bool {
        let went = self.insert(1, 0);
        self.told.begun.store(1, Ordering::SeqCst);
        went
    }

    // Inserts the children of an item, whose keys are no less: whether both found room.
    fn insert_children(&mut self, item: Item) -> bool {
        let load = item.load.saturating_add(1);
        let first = self.insert(item.key, load);
        let second = self.insert(item.key.saturating_add(3), load);
        first && second
    }

    // Lets others find two bounds meanwhile, if they are quick.
    fn pause(&self) {
        let found = self.told.found.load(Ordering::SeqCst);
        for _ in 0..100 {
            if self.told.found.load(Ordering::SeqCst) > found.saturating_add(1) {
                return;
            }
            thread::yield_now();
        }
    }

    // Deletes an item, if there is one, and inserts its children: whether they found room, and its key was not below a
    // bound that was found before.
    fn examine(&mut self) -> Option<bool> {
        let least = self.told.least.load(Ordering::SeqCst);
        let item = self.member.delete_min(self.rt, self.board, &mut Last)?;
        self.pause();
        let went = item.load >= DEPTH || self.insert_children(item);
        self.told.open.fetch_sub(1, Ordering::SeqCst);
        Some(went && item.key >= least)
    }

    // Works until no item is open, and rests: whether all was right. It may find nothing meanwhile, where another one
    // works at the last item, or has the parts.
    fn work(&mut self) -> bool {
        let mut all = true;
        for _ in self.rt.forever() {
            if self.told.open.load(Ordering::SeqCst) == 0 {
                self.member.rest(self.rt, self.board);
                return all;
            }
            let right = self.examine() != Some(false);
            all = all && right;
        }
        false
    }

    // A bound: `None` where what lives or is worked at has a lesser key than one found before.
    fn next_bound(&mut self) -> Option<Bound> {
        let least = self.told.least.load(Ordering::SeqCst);
        let bound = self.member.bound(self.rt, self.board);
        let key = bound.queue.min(bound.work);
        self.told.least.fetch_max(key, Ordering::SeqCst);
        self.told.found.fetch_add(1, Ordering::SeqCst);
        (key >= least).then_some(bound)
    }

    // Asks for bounds until nothing lives and nobody works: whether none fell, and no item is open then.
    fn read(&mut self) -> bool {
        for _ in 0..u64::MAX {
            let Some(bound) = self.next_bound() else {
                return false;
            };
            if bound.items == 0 && bound.work == NONE {
                return bound.queue == NONE && self.told.open.load(Ordering::SeqCst) == 0;
            }
        }
        false
    }
}

// What a member does by its number: whether all was right. The last one begins.
fn plays<R: Wait>(rt: &R, board: &StandardBoard, member: StandardMember, told: &Told) -> bool
    requires { IsOf member board.now }
{
    let number = u64::from(member.number());
    let mut player = Player {
        rt,
        board,
        member,
        told,
    };
    if number == READERS + WORKERS - 1 {
        return player.begin() && player.work();
    }
    told.wait_until_begun(rt);
    if number < READERS {
        player.read()
    } else {
        player.work()
    }
}

// Lets each member play in a thread of its own.
fn play_all<R: Threads + Wait + Sync>(
    rt: &R,
    board: &StandardBoard,
    members: Vec<StandardMember>,
    told: &Told,
) -> Option<Vec<bool>>
    requires { All (λ member. IsOf member board.now) members.items }
{
    thread::map_vec(
        rt,
        members,
        &|member| -> bool
            requires { IsOf member board.now }
        { plays(rt, board, member, told) },
    )
    .ok()
}

// Whether all goes right where each own part has so many items at most.
fn all_play<R: Threads + Wait + Sync>(rt: &R, alloc: Global, k: usize) -> Option<bool> {
    let threads = (READERS + WORKERS) as usize;
    let (board, members) = StandardBoard::new(alloc, threads, k, MANY).ok()?;
    let all = play_all(rt, &board, members, &Told::new())?;
    Some(all.iter().all(|went| *went))
}

#[test]
fn bounds_never_fall_where_children_have_no_lesser_keys(rt: HostRuntime) {
    for k in [0, 4, 64] {
        assert!(rt; all_play(&rt, rt.alloc(), k) == Some(true));
    }
}
