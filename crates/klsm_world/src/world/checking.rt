//! Whether a step of a world is legal, and why it is not.
ghost use Rattle.std.specs.Prelude.{◌≡◌, ◌+◌, ◌<◌, ◌≤◌, ◌↔◌, IsTrue, length, OnOk, IfErr};
ghost use Rattle.klsm_run.specs.Content.{sorted};
ghost use Rattle.klsm_schedules.specs.declared.step.Step.TheVariants.{Acquire, Commit, Release, Miss, Look, Mark, See};
ghost use Rattle.klsm_world.specs.Kept.{HoldsAll};
ghost use Rattle.klsm_schedules.specs.LawfulWorlds.{IsLawful};
ghost use Rattle.klsm_schedules.specs.LegalSteps.{BearsStamp, MayCommit};
ghost use Rattle.klsm_schedules.specs.OwnSteps.{inserted, work_of};
ghost use Rattle.klsm_world.specs.Refusals.{NamesNone, NamesNoVictim, Refuses, parts_for};
ghost use Rattle.klsm_schedules.specs.Schedules.{MayStep, NamesFront};
ghost use Rattle.klsm_schedules.specs.Worlds.{content_of, hand_in, steps_of, word_of};

use super::World;
use crate::conditions::{
    may_flush, may_refill, may_share, may_spy, may_steal, may_take, may_take_early,
};
use crate::errors::StepError;
use klsm_run::Item;
use klsm_schedules::{Event, Step};
use std::alloc::Allocator;

/// The number of the shared part.
pub(super) const SHARED: usize = 0;

/// The number of a thread's own part.
pub(super) fn own_part(thread: u32) -> usize
    ensures { result ≡ thread + 1 }
{
    thread as usize + 1
}

impl<A: Allocator + Copy> World<A> {
    // Whether a step is legal, and else why it is refused. It tries the reasons in their order.
    pub(super) fn check(&self, step: &Step) -> Result<(), StepError>
        ensures legal { OnOk result (MayStep self.now.limits self.now.world step.now) }
        ensures refused { IfErr result (λ why.
            Refuses self.now.limits self.now.world step.now why) }
    {
        if self.names_none(step) {
            return Err(StepError::NoSuchPart);
        }
        match step {
            Step::Acquire { thread, part } => self.check_acquire(*thread, *part),
            Step::Commit { thread, event } => self.check_commit(*thread, event),
            Step::Release { thread, part } => self.check_release(*thread, *part),
            Step::Miss { thread, part } => self.check_miss(*thread, *part),
            Step::Look { thread: _ } => Ok(()),
            Step::Mark { thread, key } => self.check_mark(*thread, *key),
            Step::See { thread, of } => self.check_see(*thread, *of),
        }
    }

    // Whether a step names a thread, a part or a victim that is not there, or the thread itself as
    // the victim.
    fn names_none(&self, step: &Step) -> bool
        ensures { IsTrue result ↔ NamesNone self.now.limits step.now }
    {
        match step {
            Step::Acquire { thread, part }
            | Step::Release { thread, part }
            | Step::Miss { thread, part } => *thread >= self.threads || *part > self.threads,
            Step::Commit { thread, event } => {
                *thread >= self.threads || self.names_no_victim(*thread, event)
            }
            Step::Look { thread } => *thread >= self.threads,
            Step::Mark { thread, key: _ } => *thread >= self.threads,
            Step::See { thread, of } => *thread >= self.threads || *of >= self.threads,
        }
    }

    // Whether the victim of a spy or a steal is not there, or is the thread itself.
    fn names_no_victim(&self, thread: u32, event: &Event) -> bool
        ensures { IsTrue result ↔ NamesNoVictim self.now.limits thread event.now }
    {
        match event {
            Event::Spy { victim, moved: _ } | Event::Steal { victim, moved: _ } => {
                *victim >= self.threads || *victim == thread
            }
            _ => false,
        }
    }

    fn check_acquire(&self, thread: u32, part: u32) -> Result<(), StepError>
        requires { NamesNone self.now.limits (Acquire thread part) → ⊥ }
        ensures legal { OnOk result (MayStep self.now.limits self.now.world (Acquire thread part)) }
        ensures refused { IfErr result (λ why.
            Refuses self.now.limits self.now.world (Acquire thread part) why) }
    {
        match self.word(part as usize).checked_sub(1) {
            Some(by) => Err(StepError::Held(by)),
            None => Ok(()),
        }
    }

    fn check_release(&self, thread: u32, part: u32) -> Result<(), StepError>
        requires { NamesNone self.now.limits (Release thread part) → ⊥ }
        ensures legal { OnOk result (MayStep self.now.limits self.now.world (Release thread part)) }
        ensures refused { IfErr result (λ why.
            Refuses self.now.limits self.now.world (Release thread part) why) }
    {
        if !self.holds(thread, part as usize) {
            return Err(StepError::NotHeld);
        }
        Ok(())
    }

    fn check_miss(&self, thread: u32, part: u32) -> Result<(), StepError>
        requires { NamesNone self.now.limits (Miss thread part) → ⊥ }
        ensures legal { OnOk result (MayStep self.now.limits self.now.world (Miss thread part)) }
        ensures refused { IfErr result (λ why.
            Refuses self.now.limits self.now.world (Miss thread part) why) }
    {
        let at = part as usize;
        if self.word(at) == 0 || self.holds(thread, at) {
            return Err(StepError::WrongEvent);
        }
        Ok(())
    }

    fn check_mark(&self, thread: u32, key: u64) -> Result<(), StepError>
        requires { NamesNone self.now.limits (Mark thread key) → ⊥ }
        ensures legal { OnOk result (MayStep self.now.limits self.now.world (Mark thread key)) }
        ensures refused { IfErr result (λ why.
            Refuses self.now.limits self.now.world (Mark thread key) why) }
    {
        if !self.holds(thread, own_part(thread)) {
            return Err(StepError::NotHeld);
        }
        if key != self.work(thread) && key != u64::MAX {
            return Err(StepError::WrongEvent);
        }
        Ok(())
    }

    fn check_see(&self, thread: u32, of: u32) -> Result<(), StepError>
        requires { NamesNone self.now.limits (See thread of) → ⊥ }
        ensures legal { OnOk result (MayStep self.now.limits self.now.world (See thread of)) }
        ensures refused { IfErr result (λ why.
            Refuses self.now.limits self.now.world (See thread of) why) }
    {
        if !self.holds(thread, own_part(of)) {
            return Err(StepError::NotHeld);
        }
        Ok(())
    }

    fn check_commit(&self, thread: u32, event: &Event) -> Result<(), StepError>
        requires { NamesNone self.now.limits (Commit thread event.now) → ⊥ }
        ensures legal { OnOk result
            (MayStep self.now.limits self.now.world (Commit thread event.now)) }
        ensures refused { IfErr result (λ why.
            Refuses self.now.limits self.now.world (Commit thread event.now) why) }
    {
        if !self.holds_all(thread, event) {
            return Err(StepError::NotHeld);
        }
        if !self.may_commit(thread, event) || !self.names_front(event) {
            return Err(StepError::WrongEvent);
        }
        Ok(())
    }

    // The word of a part: 0 while it is free, and t + 1 while thread t holds it.
    fn word(&self, part: usize) -> u32
        requires { part ≤ self.now.limits.threads }
        ensures { result ≡ word_of self.now.world part }
    {
        self.words[part]
    }

    // Whether a thread holds a part.
    fn holds(&self, thread: u32, part: usize) -> bool
        requires thread { thread < self.now.limits.threads }
        requires part { part ≤ self.now.limits.threads }
        ensures held { IsTrue result ↔ (word_of self.now.world part ≡ thread + 1) }
        ensures lawful { IsLawful self.now.limits self.now.world }
    {
        self.words[part] == thread + 1
    }

    // The items of a part, be it free or held.
    fn items_of(&self, part: usize) -> &[Item]
        requires { part ≤ self.now.limits.threads }
        ensures content { result.now ≡ content_of self.now.world part }
        ensures ascending { sorted result.now ≡ result.now }
    {
        self.contents[part].as_slice()
    }

    // Whether an item bears the stamp of a thread's next insertion.
    fn bears_stamp(&self, thread: u32, item: Item) -> bool
        requires { thread < self.now.limits.threads }
        ensures { IsTrue result
            ↔ BearsStamp thread (length (inserted (steps_of self.now.world thread))) item }
    {
        item.stamp.owner == thread && item.stamp.number == self.lists[thread as usize].insertions()
    }

    // The key of the item that a thread works at, and the greatest number where it works at none.
    pub(super) fn work(&self, thread: u32) -> u64
        requires { thread < self.now.limits.threads }
        ensures { result ≡ work_of (steps_of self.now.world thread) }
    {
        self.lists[thread as usize].work()
    }

    // Whether a thread holds the parts that an event needs.
    fn holds_all(&self, thread: u32, event: &Event) -> bool
        requires thread { thread < self.now.limits.threads }
        requires victim { NamesNoVictim self.now.limits thread event.now → ⊥ }
        ensures held { IsTrue result ↔ HoldsAll self.now.world thread (parts_for thread event.now) }
        ensures lawful { IsLawful self.now.limits self.now.world }
    {
        let own = self.holds(thread, own_part(thread));
        match event {
            Event::Put(_) | Event::Early { item: _, front: _ } => own,
            Event::Flush { item: _, moved: _ }
            | Event::Take(_)
            | Event::Nothing
            | Event::Refill { moved: _ }
            | Event::Share { moved: _ } => own && self.holds(thread, SHARED),
            Event::Spy { victim, moved: _ } | Event::Steal { victim, moved: _ } => {
                own && self.holds(thread, own_part(*victim))
            }
        }
    }

    // Whether an event names no other front than that of the shared part.
    fn names_front(&self, event: &Event) -> bool
        ensures { IsTrue result ↔ NamesFront self.now.world.front event.now }
    {
        match event {
            Event::Early { item: _, front } => *front == self.front(),
            _ => true,
        }
    }

    // Whether a thread may commit an event, where it holds the parts for it.
    fn may_commit(&self, thread: u32, event: &Event) -> bool
        requires thread { thread < self.now.limits.threads }
        requires victim { NamesNoVictim self.now.limits thread event.now → ⊥ }
        requires held { HoldsAll self.now.world thread (parts_for thread event.now) }
        ensures { IsTrue result
            ↔ MayCommit self.now.limits.k thread (hand_in self.now.world thread)
            (length (inserted (steps_of self.now.world thread))) event.now }
    {
        let own = self.items_of(own_part(thread));
        match event {
            Event::Put(item) => own.len() < self.k && self.bears_stamp(thread, *item),
            Event::Flush { item, moved } => {
                may_flush(self.k, own, *item, moved.as_slice()) && self.bears_stamp(thread, *item)
            }
            Event::Take(item) => may_take(self.k, thread, own, self.items_of(SHARED), *item),
            Event::Early { item, front } => may_take_early(own, *item, *front),
            Event::Nothing => own.is_empty() && self.items_of(SHARED).is_empty(),
            Event::Spy { victim, moved } => {
                may_spy(own, self.items_of(own_part(*victim)), moved.as_slice())
            }
            Event::Refill { moved } => {
                may_refill(self.k, own, self.items_of(SHARED), moved.as_slice())
            }
            Event::Steal { victim, moved } => {
                may_steal(
                    self.k,
                    own,
                    self.items_of(own_part(*victim)),
                    moved.as_slice(),
                )
            }
            Event::Share { moved } => may_share(own, moved.as_slice()),
        }
    }
}
