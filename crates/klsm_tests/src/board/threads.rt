//! Members in threads of their own, which insert, delete, ask for bounds, rest, hold parts and put them back. What they
//! noted is compared with what is found on the board afterwards, and with its account.
ghost use Rattle.std.specs.Prelude.{◌≡◌, All, IfSome};
ghost use Rattle.klsm_board.specs.Boards.{IsOf};

use klsm_board::{Account, StandardBoard, StandardMember};
use klsm_parts::Last;
use klsm_run::{Item, PROGRAM_LEVELS, Stamp};
use klsm_test_support::Crew;
use rand_core::{Rng, SeedableRng};
use rand_pcg::Pcg32;
use std::alloc::Global;
use std::sync::Wait;
use std::thread;
use std::thread::Threads;

// What a thread does in each of its rounds.
#[derive(Clone, Copy)]
enum Kind {
    // Makes a call of some kind, or holds some part.
    Mixes,
    // Makes a call that may wait.
    Waits,
    // Holds the next part in turn.
    Holds,
    // Inserts an item whose key is below all shared ones, and deletes it. Now and then it inserts an
    // item before that may be shared, or never.
    StaysBelow { shares: bool },
}

// What the threads of a test do together.
#[derive(Clone, Copy, PartialEq, Eq)]
enum Work {
    Mixed,
    // The last of them holds parts while the others make calls that may wait.
    HeldUp,
    // All stay below what is shared.
    Below,
    // They do while another member holds the shared part, so that no call may need it.
    BelowHeld,
}

// The keys of items that stay below all shared ones are less than this.
const SHARED_FROM: u64 = 1000;

// The threads of a test.
#[derive(Drop)]
struct Team {
    threads: usize,
    k: usize,
    refill: usize,
    calls: u32,
    work: Work,
}

impl Team {
    // What a thread does, and how often: there are a few parts to be held for each call.
    fn rounds_of(&self, number: u32) -> (Kind, u32) {
        match self.work {
            Work::Mixed => (Kind::Mixes, self.calls),
            Work::HeldUp if number as usize + 1 < self.threads => (Kind::Waits, self.calls),
            Work::HeldUp => (Kind::Holds, self.calls.saturating_mul(6)),
            Work::Below => (Kind::StaysBelow { shares: true }, self.calls),
            Work::BelowHeld => (Kind::StaysBelow { shares: false }, self.calls),
        }
    }

    // How many deletions the threads have to note: one in each round of a member that stays below,
    // and of others any number.
    fn deletions(&self) -> Option<usize> {
        let members = match self.work {
            Work::Mixed | Work::HeldUp => return None,
            Work::Below => self.threads,
            Work::BelowHeld => self.threads.saturating_sub(1),
        };
        Some(members.saturating_mul(self.calls as usize))
    }
}

// A member, and what it noted of its insertions and deletions.
#[derive(Drop)]
struct Worker {
    member: StandardMember,
    mix: Pcg32,
    inserted: Vec<Item>,
    deleted: Vec<Item>,
    // Whether each deletion that had to give the last item inserted did.
    is_right: bool,
}

impl Worker {
    fn new(alloc: Global, member: StandardMember) -> Self
        ensures { result.member ≡ member }
    {
        let mix = Pcg32::seed_from_u64(u64::from(member.number()));
        Worker {
            member,
            mix,
            inserted: Vec::new(alloc),
            deleted: Vec::new(alloc),
            is_right: true,
        }
    }

    // Notes an insertion, where it was not refused. Where there is no memory for that, the member
    // counts more than was noted.
    fn note_inserted(&mut self, key: u64, stamp: Option<Stamp>)
        ensures { self.new.member ≡ self.old.member }
    {
        if let Some(stamp) = stamp {
            let load = stamp.number;
            let _ = self.inserted.push(Item { key, stamp, load });
        }
    }

    // Notes a deletion likewise, where it found an item.
    fn note_deleted(&mut self, item: Option<Item>)
        ensures { self.new.member ≡ self.old.member }
    {
        if let Some(item) = item {
            let _ = self.deleted.push(item);
        }
    }

    // Inserts an item of a key, by a call that may wait or by one that does not.
    fn insert(&mut self, rt: &impl Wait, board: &StandardBoard, waits: bool, key: u64)
        requires { IsOf self.old.member board.now }
        ensures { IsOf self.new.member board.now }
    {
        let load = self.member.inserted_count();
        let stamp = if waits {
            self.member.insert(rt, board, key, load).ok()
        } else {
            self.member.try_insert(board, key, load).ok()
        };
        self.note_inserted(key, stamp);
    }

    // Deletes an item likewise.
    fn delete(&mut self, rt: &impl Wait, board: &StandardBoard, waits: bool)
        requires { IsOf self.old.member board.now }
        ensures { IsOf self.new.member board.now }
    {
        let item = if waits {
            self.member.delete_min(rt, board, &mut Last)
        } else {
            self.member.try_delete_min(board, &mut Last).unwrap_or(None)
        };
        self.note_deleted(item);
    }

    // Deletes an item likewise, and no items move behind it.
    fn delete_alone(&mut self, rt: &impl Wait, board: &StandardBoard, waits: bool)
        requires { IsOf self.old.member board.now }
        ensures { IsOf self.new.member board.now }
    {
        let item = if waits {
            self.member.delete_min_alone(rt, board, &mut Last)
        } else {
            self.member
                .try_delete_min_alone(board, &mut Last)
                .unwrap_or(None)
        };
        self.note_deleted(item);
    }

    // Shares its items likewise.
    fn give_back(&mut self, rt: &impl Wait, board: &StandardBoard, waits: bool)
        requires { IsOf self.old.member board.now }
        ensures { IsOf self.new.member board.now }
    {
        let _count = if waits {
            self.member.share(rt, board).ok()
        } else {
            self.member.try_share(board).ok()
        };
    }

    // Asks for a bound likewise.
    fn ask(&mut self, rt: &impl Wait, board: &StandardBoard, waits: bool)
        requires { IsOf self.old.member board.now }
        ensures { IsOf self.new.member board.now }
    {
        let _bound = if waits {
            Some(self.member.bound(rt, board))
        } else {
            self.member.try_bound(board).ok()
        };
    }

    // Works at nothing any more, likewise.
    fn rest(&mut self, rt: &impl Wait, board: &StandardBoard, waits: bool)
        requires { IsOf self.old.member board.now }
        ensures { IsOf self.new.member board.now }
    {
        if waits {
            self.member.rest(rt, board);
        } else {
            let _answer = self.member.try_rest(board);
        }
    }

    // Holds a part, if it is free, and puts it back.
    fn hold(self, board: &StandardBoard, lock: usize) -> Self
        requires { IsOf self.member board.now }
        ensures { IsOf result.member board.now }
    {
        let Worker {
            member,
            mix,
            inserted,
            deleted,
            is_right,
        } = self;
        let member = match member.try_hold(board, lock) {
            Ok(held) => held.put_back(board),
            Err(refused) => refused.member,
        };
        Worker {
            member,
            mix,
            inserted,
            deleted,
            is_right,
        }
    }

    // Makes a call of some kind. Deletions are more than insertions, so that parts are often empty.
    fn mix(mut self, rt: &impl Wait, board: &StandardBoard) -> Self
        requires { IsOf self.member board.now }
        ensures { IsOf result.member board.now }
    {
        match self.mix.next_u32() % 24 {
            kind @ 0..=5 => {
                let key = self.mix.next_u64() % 1000;
                self.insert(rt, board, kind < 3, key);
            }
            kind @ 6..=13 => self.delete(rt, board, kind < 10),
            kind @ 14..=15 => self.delete_alone(rt, board, kind < 15),
            kind @ 16..=17 => self.give_back(rt, board, kind < 17),
            kind @ 18..=19 => self.ask(rt, board, kind < 19),
            kind @ 20..=21 => self.rest(rt, board, kind < 21),
            _ => {
                let lock = self.mix.next_u32() as usize % (board.threads() + 1);
                return self.hold(board, lock);
            }
        }
        self
    }

    // Makes a call that may wait. Insertions and deletions are alike in number.
    fn wait(mut self, rt: &impl Wait, board: &StandardBoard) -> Self
        requires { IsOf self.member board.now }
        ensures { IsOf result.member board.now }
    {
        if self.mix.next_u32() % 2 == 0 {
            let key = self.mix.next_u64() % 1000;
            self.insert(rt, board, true, key);
        } else {
            self.delete(rt, board, true);
        }
        self
    }

    // Inserts an item whose key is below all shared ones and deletes it, by calls that may wait or by
    // others.
    fn stay_below(mut self, rt: &impl Wait, board: &StandardBoard, waits: bool) -> Self
        requires { IsOf self.member board.now }
        ensures { IsOf result.member board.now }
    {
        let key = self.mix.next_u64() % SHARED_FROM;
        self.insert(rt, board, waits, key);
        self.delete(rt, board, waits);
        self.is_right = self.is_right && self.deleted.last() == self.inserted.last();
        self
    }

    // Inserts an item that may be shared, and then stays below.
    fn share(mut self, rt: &impl Wait, board: &StandardBoard) -> Self
        requires { IsOf self.member board.now }
        ensures { IsOf result.member board.now }
    {
        let key = SHARED_FROM + self.mix.next_u64() % 1000;
        self.insert(rt, board, true, key);
        self.stay_below(rt, board, true)
    }

    // Does what there is to do in a round.
    fn go_on(self, rt: &impl Wait, board: &StandardBoard, kind: Kind, round: u32) -> Self
        requires { IsOf self.member board.now }
        ensures { IsOf result.member board.now }
    {
        match kind {
            Kind::Mixes => self.mix(rt, board),
            Kind::Waits => self.wait(rt, board),
            Kind::Holds => self.hold(board, round as usize % (board.threads() + 1)),
            Kind::StaysBelow { shares } if shares && round % 4 == 0 => self.share(rt, board),
            Kind::StaysBelow { shares } => self.stay_below(rt, board, shares),
        }
    }

    // Does what there is to do in each of its rounds.
    fn run(self, rt: &impl Wait, board: &StandardBoard, team: &Team) -> Self
        requires { IsOf self.member board.now }
        ensures { IsOf result.member board.now }
    {
        let (kind, rounds) = team.rounds_of(self.member.number());
        let mut worker = self;
        for round in 0..rounds {
            worker = worker.go_on(rt, board, kind, round);
        }
        worker
    }

    // Whether its deletions were right, and its counts are those of what it noted.
    fn agrees(&self) -> bool {
        let noted = (self.inserted.len() as u64, self.deleted.len() as u64);
        let counts = (self.member.inserted_count(), self.member.deleted_count());
        self.is_right && counts == noted
    }
}

// Lets each member work in a thread of its own.
fn run_all<R: Threads + Wait + Sync>(
    rt: &R,
    alloc: Global,
    board: &StandardBoard,
    members: Vec<StandardMember>,
    team: &Team,
) -> Option<Vec<Worker>>
    requires { All (λ member. IsOf member board.now) members.items }
    ensures { IfSome result (λ workers. All (λ worker. IsOf worker.member board.now) workers.items) }
{
    thread::map_vec(
        rt,
        members,
        &|member| -> Worker
            requires { IsOf member board.now }
            ensures { IsOf result.member board.entry.now }
        { Worker::new(alloc, member).run(rt, board, team) },
    )
    .ok()
}

// A board whose members are back, and what they noted.
#[derive(Drop)]
struct Found {
    crew: Crew<PROGRAM_LEVELS>,
    inserted: Vec<Item>,
    deleted: Vec<Item>,
}

impl Found {
    // A worker's member comes back. `None` where it does not agree with what it noted.
    fn add(&mut self, worker: Worker) -> Option<()>
        requires { IsOf worker.member self.old.crew.board }
        ensures { self.new.crew.board ≡ self.old.crew.board }
    {
        if !worker.agrees() {
            return None;
        }
        let Worker {
            member,
            inserted,
            deleted,
            ..
        } = worker;
        self.crew.come_back(member)?;
        self.inserted.extend_from_slice(inserted.as_slice()).ok()?;
        self.deleted.extend_from_slice(deleted.as_slice()).ok()
    }

    // Notes what a member still finds, once the part that is held is back. Whether that was so much at
    // most.
    fn drain(&mut self, most: usize) -> Option<bool> {
        if self.crew.held.is_some() {
            self.crew.put_back()?;
        }
        for _ in 0..most {
            let Some(item) = self.crew.try_delete_min(0, &mut Last)?.ok()? else {
                return Some(true);
            };
            self.deleted.push(item).ok()?;
        }
        Some(false)
    }

    // Whether the board's account tells what was noted, and each item was deleted or is left.
    fn has_account(self, alloc: Global) -> Option<bool> {
        let Found {
            crew,
            inserted,
            deleted,
        } = self;
        tells_all(crew.finish(alloc).ok()?, inserted, deleted)
    }
}

// The same while some workers that have ended are not back.
#[derive(Drop)]
struct Ended {
    found: Found,
    workers: Vec<Worker>,
    ghost workers_are_of: { All (λ worker. IsOf worker.member found.crew.board) workers.items },
}

impl Ended {
    // The last worker comes back.
    fn take_back(&mut self) -> Option<()> {
        let worker = self.workers.pop()?;
        self.found.add(worker)
    }

    // All workers do.
    fn take_all_back(&mut self) -> Option<()> {
        for _ in 0..self.workers.len() {
            self.take_back()?;
        }
        Some(())
    }
}

// Whether an account tells of these insertions and deletions, and of what is left.
fn tells_all(account: Account, inserted: Vec<Item>, deleted: Vec<Item>) -> Option<bool> {
    let noted = (inserted.len() as u64, deleted.len() as u64);
    let (mut inserted, mut found) = (inserted, deleted);
    found.extend_from_slice(account.left.as_slice()).ok()?;
    inserted.sort_unstable();
    found.sort_unstable();
    Some((account.inserted, account.deleted) == noted && found == inserted)
}

// What is found once these workers are back.
fn found_by(alloc: Global, crew: Crew<PROGRAM_LEVELS>, workers: Vec<Worker>) -> Option<Found>
    requires { All (λ worker. IsOf worker.member crew.board) workers.items }
{
    let found = Found {
        crew,
        inserted: Vec::new(alloc),
        deleted: Vec::new(alloc),
    };
    let mut ended = Ended { found, workers };
    ended.take_all_back()?;
    Some(ended.found)
}

// The board of a team, whose last member may hold the shared part.
fn crew_of(alloc: Global, team: &Team) -> Option<Crew<PROGRAM_LEVELS>> {
    let quota = u64::from(team.calls).saturating_mul(2);
    let mut crew = Crew::with_refill(alloc, team.threads, team.k, quota, team.refill).ok()?;
    if team.work == Work::BelowHeld {
        crew.try_hold(0)?.ok()?;
    }
    Some(crew)
}

// What is found once all threads of a team have ended.
fn run_team<R: Threads + Wait + Sync>(rt: &R, alloc: Global, team: &Team) -> Option<Found> {
    let mut crew = crew_of(alloc, team)?;
    let members = crew.take_members(alloc);
    let workers = run_all(rt, alloc, &crew.board, members, team)?;
    found_by(alloc, crew, workers)
}

// Whether each item was inserted once, and deleted once by a thread or by some member afterwards,
// or is left in the account.
fn each_once<R: Threads + Wait + Sync>(rt: &R, alloc: Global, team: &Team) -> Option<bool> {
    let mut found = run_team(rt, alloc, team)?;
    let many = found.inserted.len() > team.calls as usize / 4;
    let all = team
        .deletions()
        .is_none_or(|all| found.deleted.len() == all);
    let most = found.inserted.len().saturating_add(1);
    let drained = team.work == Work::HeldUp || found.drain(most)?;
    Some(many && all && drained && found.has_account(alloc)?)
}

// Threads that make this many calls each, of which more delete than insert, so that parts are often empty.
fn mixed(threads: usize, refill: usize, calls: u32) -> Team {
    Team {
        threads,
        k: 4,
        refill,
        calls,
        work: Work::Mixed,
    }
}

#[test]
fn two_threads_find_each_item_once(rt: HostRuntime) {
    assert!(rt; each_once(&rt, rt.alloc(), &mixed(2, 0, 100_000)) == Some(true));
}

#[test]
fn four_threads_find_each_item_once(rt: HostRuntime) {
    assert!(rt; each_once(&rt, rt.alloc(), &mixed(4, 0, 100_000)) == Some(true));
}

#[test]
fn four_threads_that_move_items_find_each_once(rt: HostRuntime) {
    for refill in [1, 4] {
        assert!(rt; each_once(&rt, rt.alloc(), &mixed(4, refill, 40_000)) == Some(true));
    }
}

// More items than own parts have room for.
const HELD_UP: &[(usize, usize)] = &[(4, 0), (4, 1), (16, 8), (16, 16)];

#[test]
fn four_threads_wait_for_parts_that_a_fifth_holds(rt: HostRuntime) {
    for (k, refill) in HELD_UP {
        let team = Team {
            threads: 5,
            k: *k,
            refill: *refill,
            calls: 2000,
            work: Work::HeldUp,
        };
        assert!(rt; each_once(&rt, rt.alloc(), &team) == Some(true));
    }
}

const FOUR_BELOW: Team = Team {
    threads: 4,
    k: 4,
    refill: 0,
    calls: 20_000,
    work: Work::Below,
};

// Each deletion goes by the front, which the flushes of the others set meanwhile, and gives the item
// that its thread inserted last.
#[test]
fn four_threads_delete_what_is_below_the_front(rt: HostRuntime) {
    assert!(rt; each_once(&rt, rt.alloc(), &FOUR_BELOW) == Some(true));
}

const FOUR_BESIDE_A_HOLDER: Team = Team {
    threads: 5,
    k: 4,
    refill: 0,
    calls: 20_000,
    work: Work::BelowHeld,
};

// None of their calls is refused, though none of them waits and the shared part is held.
#[test]
fn four_threads_do_without_the_shared_part(rt: HostRuntime) {
    assert!(rt; each_once(&rt, rt.alloc(), &FOUR_BESIDE_A_HOLDER) == Some(true));
}
