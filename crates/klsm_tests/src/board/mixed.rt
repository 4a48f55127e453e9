//! Mixed calls of the members of a board, made in one thread, while now and then one of them holds a
//! part: each answer is that of a plain board, and so is the account in the end.

use super::plain::Plain;
use crate::rules::Pick;
use klsm_board::{Busy, TryInsertError, TryShareError};
use klsm_parts::{First, Last, Picker, Random};
use klsm_run::{Item, Stamp};
use klsm_test_support::Crew;
use rand_core::{Rng, SeedableRng};
use rand_pcg::Pcg32;
use std::alloc::Global;

// How candidates are picked.
#[derive(Clone, Copy)]
enum Picks {
    First,
    Last,
    Random,
}

// What a board is made for, and after how many calls those that insert and those that delete become more.
#[derive(Clone, Copy)]
struct Kind {
    threads: u32,
    k: usize,
    refill: usize,
    turn: usize,
}

// A board, the plain one beside it, and what the steps are drawn by.
#[derive(Drop)]
struct Both {
    crew: Crew<21>,
    plain: Plain,
    mix: Pcg32,
    picks: Picks,
}

fn both_of(alloc: Global, kind: Kind, picks: Picks) -> Option<Both> {
    let Kind {
        threads,
        k,
        refill,
        ..
    } = kind;
    Some(Both {
        crew: Crew::with_refill(alloc, threads as usize, k, 1000, refill).ok()?,
        plain: Plain::new(alloc, threads, k, refill)?,
        mix: Pcg32::seed_from_u64(12),
        picks,
    })
}

// A member's number.
fn number_of(member: usize) -> Option<u32> {
    u32::try_from(member).ok()
}

// An insertion of a plain board, as one of a board.
fn as_tried(answer: Result<Stamp, Busy>) -> Result<Stamp, TryInsertError> {
    match answer {
        Ok(stamp) => Ok(stamp),
        Err(busy) => Err(TryInsertError::Busy(busy)),
    }
}

// How a member's deletion ends, or one behind which no items move.
fn try_delete<P: Picker>(
    crew: &mut Crew<21>,
    member: usize,
    is_alone: bool,
    picker: &mut P,
) -> Option<Result<Option<Item>, Busy>> {
    if is_alone {
        crew.try_delete_min_alone(member, picker)
    } else {
        crew.try_delete_min(member, picker)
    }
}

// A number below `bound`, or 0.
fn below(mix: &mut Pcg32, bound: usize) -> usize {
    mix.next_u32() as usize % bound.max(1)
}

impl Both {
    // Whether an insertion ends alike. Keys are few, so that equal ones occur.
    fn insert(&mut self, member: usize) -> Option<bool> {
        let key = self.mix.next_u64() % 40;
        let load = self.mix.next_u64();
        let want = as_tried(self.plain.insert(number_of(member)?, key, load)?);
        Some(self.crew.try_insert(member, key, load)? == want)
    }

    // How this deletion picks.
    fn next_pick(&self) -> Option<Pick> {
        Some(match self.picks {
            Picks::First => Pick::Nth(0),
            Picks::Last => Pick::Last,
            Picks::Random => Pick::Nth(self.mix.clone().ok()?.next_u64()),
        })
    }

    // Whether a deletion ends alike, or one behind which no items move.
    fn delete(&mut self, member: usize, is_alone: bool) -> Option<bool> {
        let pick = self.next_pick()?;
        let want = if is_alone {
            self.plain.delete_alone(number_of(member)?, pick)?
        } else {
            self.plain.delete(number_of(member)?, pick)?
        };
        Some(self.try_delete(member, is_alone)? == want)
    }

    // How it ends on the board.
    fn try_delete(&mut self, member: usize, is_alone: bool) -> Option<Result<Option<Item>, Busy>> {
        match self.picks {
            Picks::First => try_delete(&mut self.crew, member, is_alone, &mut First),
            Picks::Last => try_delete(&mut self.crew, member, is_alone, &mut Last),
            Picks::Random => {
                let mut random = Random::new(&mut self.mix);
                try_delete(&mut self.crew, member, is_alone, &mut random)
            }
        }
    }

    // Whether a sharing ends alike.
    fn share(&mut self, member: usize) -> Option<bool> {
        let want = match self.plain.share(number_of(member)?)? {
            Ok(count) => Ok(count),
            Err(busy) => Err(TryShareError::Busy(busy)),
        };
        Some(self.crew.try_share(member)? == want)
    }

    // Whether a bound that the first free member asks for ends alike.
    fn bound(&mut self) -> Option<bool> {
        if self.crew.members.is_empty() {
            return Some(true);
        }
        Some(self.crew.try_bound(0)? == self.plain.bound()?)
    }

    // Whether a rest of a free member ends alike, each of them in its turn.
    fn rest(&mut self, round: usize) -> Option<bool> {
        let free = self.crew.members.len();
        if free == 0 {
            return Some(true);
        }
        let member = round % free;
        let want = self.plain.rest(number_of(member)?)?;
        Some(self.crew.try_rest(member)? == want)
    }

    // Whether a balance with some other member ends alike, and without others a deletion.
    fn balance(&mut self, member: usize) -> Option<bool> {
        let threads = self.crew.board.threads();
        if threads < 2 {
            return self.delete(member, false);
        }
        let steps = below(&mut self.mix, threads.saturating_sub(1)).saturating_add(1);
        let victim = number_of(member.saturating_add(steps) % threads)?;
        let most = below(&mut self.mix, 6);
        let want = self.plain.balance(number_of(member)?, victim, most)?;
        Some(self.crew.try_balance(member, victim, most)? == want)
    }

    // The number of the last member that holds no part.
    fn last_free(&self) -> Option<u32> {
        Some(number_of(self.crew.members.len())?.saturating_sub(1))
    }

    // Whether a member holds a part of which there is this to be seen.
    fn sees(&self, member: u32, lock: usize, sight: Option<(usize, Option<Item>)>) -> bool {
        match sight {
            Some((len, least)) => self.crew.holds(member, lock, len, least),
            None => false,
        }
    }

    // Whether a try of the last member to hold a part ends alike, and it sees what there is.
    fn hold(&mut self, lock: usize) -> Option<bool> {
        let member = self.last_free()?;
        let sight = self.plain.sight(lock);
        let want = self.plain.hold(member, lock);
        let is_same = self.crew.try_hold(lock)? == want;
        Some(is_same && (want.is_err() || self.sees(member, lock, sight)))
    }

    // Whether the part that is held goes back.
    fn put_back(&mut self) -> bool {
        self.plain.held = None;
        self.crew.put_back().is_some()
    }

    // Some lock, as often as not that of the shared part, and some that are not there.
    fn any_lock(&mut self) -> usize {
        match below(&mut self.mix, 2) {
            0 => 0,
            _ => below(&mut self.mix, self.crew.board.threads().saturating_add(3)),
        }
    }

    // Whether a part is held, or the one that is held tried once more or put back.
    fn hold_or_put_back(&mut self) -> Option<bool> {
        match self.plain.held {
            Some(busy) if below(&mut self.mix, 3) == 0 => self.hold(busy.lock),
            Some(_) => Some(self.put_back()),
            None => {
                let lock = self.any_lock();
                self.hold(lock)
            }
        }
    }

    // Whether a call of some kind ends alike. Of 19 numbers those from 2 up to a bound are insertions, and the last three
    // are a balance, a sharing and a deletion behind which no items move.
    fn step(&mut self, bound: u32) -> Option<bool> {
        let free = self.crew.members.len();
        if free == 0 {
            return Some(self.put_back());
        }
        let member = below(&mut self.mix, free);
        match self.mix.next_u32() % 19 {
            0 | 1 => self.hold_or_put_back(),
            16 => self.balance(member),
            17 => self.share(member),
            18 => self.delete(member, true),
            kind if kind < bound => self.insert(member),
            _ => self.delete(member, false),
        }
    }

    // Whether each of 1,200 calls does, a rest behind each fifth, and a bound behind all: for a while more insertions, and
    // for as long more deletions.
    fn steps(&mut self, turn: usize) -> Option<bool> {
        for round in 0..1200 {
            let bound = if round / turn.max(1) % 2 == 0 { 11 } else { 4 };
            let rests = round % 5 == 4;
            if !self.step(bound)? || (rests && !self.rest(round)?) || !self.bound()? {
                return Some(false);
            }
        }
        Some(true)
    }

    // Whether the account tells the same once the part that is held is back.
    fn ends_alike(mut self, alloc: Global) -> Option<bool> {
        if self.crew.held.is_some() {
            self.put_back();
        }
        let Both { crew, plain, .. } = self;
        plain.has_account(&crew.finish(alloc).ok()?)
    }
}

// Whether all goes alike. Where there are others and own parts, some deletions have to go by the
// front while the shared part is held, some have to spy, and some balances have to steal. With a refill some have to
// move items. Where there are own parts some sharings have to move items. Some rests have to end a member's work.
fn goes_alike(alloc: Global, kind: Kind, picks: Picks) -> Option<bool> {
    let mut both = both_of(alloc, kind, picks)?;
    let steps = both.steps(kind.turn)?;
    let others = kind.threads > 1 && kind.k > 0;
    let ways = (both.plain.early > 4) == others && (both.plain.spied > 4) == others;
    let moves = (both.plain.refilled > 0) == (kind.refill > 0);
    let steals = (both.plain.stolen > 0) == others;
    let shares = (both.plain.given > 0) == (kind.k > 0);
    let rests = both.plain.rested > 4;
    Some(steps && ways && moves && steals && shares && rests && both.ends_alike(alloc)?)
}

// Whether they do for one to four members and each way to pick.
fn all_go_alike(alloc: Global, k: usize, refill: usize, turn: usize) -> Option<bool> {
    for threads in 1..=4 {
        let kind = Kind {
            threads,
            k,
            refill,
            turn,
        };
        for picks in [Picks::First, Picks::Last, Picks::Random] {
            if !goes_alike(alloc, kind, picks)? {
                return Some(false);
            }
        }
    }
    Some(true)
}

#[test]
fn mixed_calls_end_as_those_of_a_plain_board(rt: HostRuntime) {
    for k in 0..=4 {
        for refill in 0..=k {
            assert!(rt; all_go_alike(rt.alloc(), k, refill, 50) == Some(true));
        }
    }
}

#[test]
fn so_do_those_that_move_many_items(rt: HostRuntime) {
    for refill in [1, 8, 16, 20] {
        assert!(rt; all_go_alike(rt.alloc(), 20, refill, 300) == Some(true));
    }
}
