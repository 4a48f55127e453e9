//! The steps of a world that are legal, each by its kind.
ghost use Rattle.std.specs.Prelude.{◌≡◌, ◌<◌, ◌++◌, ◌∷◌, [], slice_index_or, slice_set, OnOk, OnErr, IfErr};
ghost use Rattle.std.specs.Vec.{vec_len};
ghost use Rattle.klsm_schedules.specs.declared.step.Event.TheVariants.{Put, Flush, Take, Early, Nothing, Spy, Refill, Steal, Share};
ghost use Rattle.klsm_schedules.specs.declared.step.Step.TheVariants.{Acquire, Commit, Release, Miss, Look, Mark, See};
ghost use Rattle.klsm_world.specs.Kept.{entry_of};
ghost use Rattle.klsm_world.specs.WorldView.{IsStepped};
ghost use Rattle.klsm_schedules.specs.Schedules.{MayStep};

use super::World;
use super::checking::{SHARED, own_part};
use crate::conditions::has;
use crate::contents::{copied, remove_all_from, with_all, without_all};
use crate::errors::StepError;
use crate::own_steps::{KeptStep, OwnSteps};
use klsm_run::Item;
use klsm_schedules::{Event, Items};
use std::alloc::Allocator;

// Adds a step to a thread's list.
fn note<A: Allocator>(
    lists: &mut Vec<OwnSteps<A>, A>,
    thread: u32,
    step: KeptStep,
    items: Items<A>,
) -> Result<(), StepError>
    requires { thread < vec_len lists.old }
    ensures noted { OnOk result (lists.new.items ≡ slice_set lists.old.items thread
        (slice_index_or lists.old.items thread [] ++ entry_of step items ∷ [])) }
    ensures refused { IfErr result (λ why. why ≡ StepError.NoMemory) }
    ensures unchanged { OnErr result (lists.new.items ≡ lists.old.items) }
{
    lists[thread as usize].push(step, items)
}

impl<A: Allocator + Copy> World<A> {
    pub(super) fn acquire(&mut self, thread: u32, part: u32) -> Result<(), StepError>
        requires { MayStep self.old.limits self.old.world (Acquire thread part) }
        ensures { IsStepped self.old (Acquire thread part) result self.new }
    {
        let at = part as usize;
        let found = Items::new(copied(self.alloc, self.contents[at].as_slice())?);
        note(&mut self.lists, thread, KeptStep::Acquired(part), found)?;
        self.words[at] = thread + 1;
        Ok(())
    }

    pub(super) fn release(&mut self, thread: u32, part: u32) -> Result<(), StepError>
        requires { MayStep self.old.limits self.old.world (Release thread part) }
        ensures { IsStepped self.old (Release thread part) result self.new }
    {
        let none = Items::new(Vec::new(self.alloc));
        note(&mut self.lists, thread, KeptStep::Released(part), none)?;
        self.words[part as usize] = 0;
        Ok(())
    }

    pub(super) fn miss(&mut self, thread: u32, part: u32) -> Result<(), StepError>
        requires { MayStep self.old.limits self.old.world (Miss thread part) }
        ensures { IsStepped self.old (Miss thread part) result self.new }
    {
        let by = self.words[part as usize] - 1;
        let none = Items::new(Vec::new(self.alloc));
        note(&mut self.lists, thread, KeptStep::Missed(part, by), none)?;
        Ok(())
    }

    pub(super) fn look(&mut self, thread: u32) -> Result<(), StepError>
        requires { MayStep self.old.limits self.old.world (Look thread) }
        ensures { IsStepped self.old (Look thread) result self.new }
    {
        let front = self.front();
        let none = Items::new(Vec::new(self.alloc));
        note(&mut self.lists, thread, KeptStep::Looked(front), none)?;
        Ok(())
    }

    pub(super) fn mark(&mut self, thread: u32, key: u64) -> Result<(), StepError>
        requires { MayStep self.old.limits self.old.world (Mark thread key) }
        ensures { IsStepped self.old (Mark thread key) result self.new }
    {
        let none = Items::new(Vec::new(self.alloc));
        note(&mut self.lists, thread, KeptStep::Marked(key), none)?;
        Ok(())
    }

    pub(super) fn see(&mut self, thread: u32, of: u32) -> Result<(), StepError>
        requires { MayStep self.old.limits self.old.world (See thread of) }
        ensures { IsStepped self.old (See thread of) result self.new }
    {
        let key = self.work(of);
        let none = Items::new(Vec::new(self.alloc));
        note(&mut self.lists, thread, KeptStep::Saw(of, key), none)?;
        Ok(())
    }

    pub(super) fn commit(&mut self, thread: u32, event: &Event) -> Result<(), StepError>
        requires { MayStep self.old.limits self.old.world (Commit thread event.now) }
        ensures { IsStepped self.old (Commit thread event.now) result self.new }
    {
        match event {
            Event::Put(item) => self.put(thread, *item),
            Event::Flush { item, moved } => self.flush(thread, *item, moved.as_slice()),
            Event::Take(item) => self.take(thread, *item),
            Event::Early { item, front } => self.take_early(thread, *item, *front),
            Event::Nothing => self.find_nothing(thread),
            Event::Spy { victim, moved } => self.spy(thread, *victim, moved.as_slice()),
            Event::Refill { moved } => self.refill(thread, moved.as_slice()),
            Event::Steal { victim, moved } => self.steal(thread, *victim, moved.as_slice()),
            Event::Share { moved } => self.share(thread, moved.as_slice()),
        }
    }

    fn put(&mut self, thread: u32, item: Item) -> Result<(), StepError>
        requires { MayStep self.old.limits self.old.world (Commit thread (Put item)) }
        ensures { IsStepped self.old (Commit thread (Put item)) result self.new }
    {
        let own = own_part(thread);
        let after = with_all(self.alloc, self.contents[own].as_slice(), &[item])?;
        let none = Items::new(Vec::new(self.alloc));
        note(&mut self.lists, thread, KeptStep::Put(item), none)?;
        self.contents[own] = Items::new(after);
        Ok(())
    }

    fn flush(&mut self, thread: u32, item: Item, moved: &[Item]) -> Result<(), StepError>
        requires { MayStep self.old.limits self.old.world (Commit thread (Flush item moved.now)) }
        ensures { IsStepped self.old (Commit thread (Flush item moved.now)) result self.new }
    {
        let own = own_part(thread);
        let mut own_after = with_all(self.alloc, self.contents[own].as_slice(), &[item])?;
        remove_all_from(&mut own_after, moved);
        let shared_after = with_all(self.alloc, self.contents[SHARED].as_slice(), moved)?;
        let listed = Items::new(copied(self.alloc, moved)?);
        note(&mut self.lists, thread, KeptStep::Flush(item), listed)?;
        self.contents[own] = Items::new(own_after);
        self.contents[SHARED] = Items::new(shared_after);
        Ok(())
    }

    fn take(&mut self, thread: u32, item: Item) -> Result<(), StepError>
        requires { MayStep self.old.limits self.old.world (Commit thread (Take item)) }
        ensures { IsStepped self.old (Commit thread (Take item)) result self.new }
    {
        // The item leaves the part that has it.
        let own = own_part(thread);
        let is_own = has(self.contents[own].as_slice(), item);
        let part = if is_own { own } else { SHARED };
        let after = without_all(self.alloc, self.contents[part].as_slice(), &[item])?;
        let none = Items::new(Vec::new(self.alloc));
        note(&mut self.lists, thread, KeptStep::Take(item), none)?;
        self.contents[part] = Items::new(after);
        Ok(())
    }

    fn take_early(&mut self, thread: u32, item: Item, front: u64) -> Result<(), StepError>
        requires { MayStep self.old.limits self.old.world (Commit thread (Early item front)) }
        ensures { IsStepped self.old (Commit thread (Early item front)) result self.new }
    {
        let own = own_part(thread);
        let after = without_all(self.alloc, self.contents[own].as_slice(), &[item])?;
        let none = Items::new(Vec::new(self.alloc));
        note(&mut self.lists, thread, KeptStep::Early(item, front), none)?;
        self.contents[own] = Items::new(after);
        Ok(())
    }

    fn find_nothing(&mut self, thread: u32) -> Result<(), StepError>
        requires { MayStep self.old.limits self.old.world (Commit thread Nothing) }
        ensures { IsStepped self.old (Commit thread Nothing) result self.new }
    {
        let none = Items::new(Vec::new(self.alloc));
        note(&mut self.lists, thread, KeptStep::Nothing, none)?;
        Ok(())
    }

    fn spy(&mut self, thread: u32, victim: u32, moved: &[Item]) -> Result<(), StepError>
        requires { MayStep self.old.limits self.old.world (Commit thread (Spy victim moved.now)) }
        ensures { IsStepped self.old (Commit thread (Spy victim moved.now)) result self.new }
    {
        let from = own_part(victim);
        let left = without_all(self.alloc, self.contents[from].as_slice(), moved)?;
        let own_after = copied(self.alloc, moved)?;
        let listed = Items::new(copied(self.alloc, moved)?);
        note(&mut self.lists, thread, KeptStep::Spy(victim), listed)?;
        self.contents[own_part(thread)] = Items::new(own_after);
        self.contents[from] = Items::new(left);
        Ok(())
    }

    fn refill(&mut self, thread: u32, moved: &[Item]) -> Result<(), StepError>
        requires { MayStep self.old.limits self.old.world (Commit thread (Refill moved.now)) }
        ensures { IsStepped self.old (Commit thread (Refill moved.now)) result self.new }
    {
        let own = own_part(thread);
        let own_after = with_all(self.alloc, self.contents[own].as_slice(), moved)?;
        let left = without_all(self.alloc, self.contents[SHARED].as_slice(), moved)?;
        let listed = Items::new(copied(self.alloc, moved)?);
        note(&mut self.lists, thread, KeptStep::Refill, listed)?;
        self.contents[own] = Items::new(own_after);
        self.contents[SHARED] = Items::new(left);
        Ok(())
    }

    fn steal(&mut self, thread: u32, victim: u32, moved: &[Item]) -> Result<(), StepError>
        requires { MayStep self.old.limits self.old.world (Commit thread (Steal victim moved.now)) }
        ensures { IsStepped self.old (Commit thread (Steal victim moved.now)) result self.new }
    {
        let own = own_part(thread);
        let from = own_part(victim);
        let own_after = with_all(self.alloc, self.contents[own].as_slice(), moved)?;
        let kept = without_all(self.alloc, self.contents[from].as_slice(), moved)?;
        let listed = Items::new(copied(self.alloc, moved)?);
        note(&mut self.lists, thread, KeptStep::Steal(victim), listed)?;
        self.contents[own] = Items::new(own_after);
        self.contents[from] = Items::new(kept);
        Ok(())
    }

    fn share(&mut self, thread: u32, moved: &[Item]) -> Result<(), StepError>
        requires { MayStep self.old.limits self.old.world (Commit thread (Share moved.now)) }
        ensures { IsStepped self.old (Commit thread (Share moved.now)) result self.new }
    {
        let own = own_part(thread);
        let own_after = without_all(self.alloc, self.contents[own].as_slice(), moved)?;
        let joined = with_all(self.alloc, self.contents[SHARED].as_slice(), moved)?;
        let listed = Items::new(copied(self.alloc, moved)?);
        note(&mut self.lists, thread, KeptStep::Share, listed)?;
        self.contents[own] = Items::new(own_after);
        self.contents[SHARED] = Items::new(joined);
        Ok(())
    }
}
