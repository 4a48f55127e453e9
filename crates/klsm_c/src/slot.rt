//! A handle with the number that says whether it has a member.
ghost use Rattle.std.specs.Prelude.{◌≡◌, ◌∷◌, [], ◌≤◌, nat_lt, length, MatchOption};
ghost use Rattle.std.specs.Borrow.{sem};

use crate::handle::Handle;
use crate::raw_box::RawBox;
use klsm_owned::OwnedMember;
use std::alloc::Global;

/// What C keeps for one member. All bytes 0 is a closed slot. It fills two lines of the cache, which a
/// processor fetches together.
#[repr(C)]
#[derive(Drop)]
pub struct Slot {
    pub handle: Handle,
    live: u64,
    room: [u64; 14],
    pub ghost fits: { live ≡ length handle.held },
    pub ghost single: { live ≤ 1 },
}

impl Slot {
    ghost use Rattle.klsm_c.specs.Lending.{LendsFromSlot};

    /// A slot as C begins with it.
    pub fn closed() -> Slot
        ensures { result.handle.held ≡ [] }
    {
        Slot {
            handle: Handle::empty(),
            live: 0,
            room: [0; 14],
        }
    }

    pub(crate) fn is_open(&self) -> bool
        ensures { result ≡ nat_lt 0 (length self.now.handle.held) }
    {
        self.live != 0
    }

    /// Lends the member where it lies, if there is one.
    ///
    /// The slot is written to, also for a call that reads its member alone: so a tool that looks for races
    /// sees two calls of one member at once.
    #[inline]
    pub(crate) fn member_mut(&mut self) -> Option<&mut OwnedMember>
        ensures* writes_back { sem 𝓛 (LendsFromSlot self.entry result) }
        ensures value { MatchOption result (self.old.handle.held ≡ [])
            (λ member. self.old.handle.held ≡ member.now ∷ []) }
    {
        if self.live == 0 {
            return None;
        }
        self.live = 1;
        Some(self.handle.member_mut())
    }

    /// Takes the member out, if there is one.
    #[inline]
    pub(crate) fn take(&mut self, alloc: Global) -> Option<Box<OwnedMember, Global>>
        ensures empty { self.new.handle.held ≡ [] }
        ensures taken { MatchOption result (self.old.handle.held ≡ [])
            (λ b. self.old.handle.held ≡ b.value ∷ []) }
    {
        if self.live == 0 {
            return None;
        }
        let handle = std::mem::replace(&mut self.handle, Handle::empty());
        self.live = 0;
        Some(handle.open(alloc).into_box())
    }

    /// Puts a member in.
    #[inline]
    pub(crate) fn fill(&mut self, member: Box<OwnedMember, Global>)
        ensures { self.new.handle.held ≡ member.value ∷ [] }
    {
        self.handle = Handle::seal(RawBox::of(member));
        self.live = 1;
    }
}
