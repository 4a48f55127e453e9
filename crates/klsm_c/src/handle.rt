// A member on the heap, behind a pointer that names no type, so that C can keep it.
ghost use Rattle.std.specs.Prelude.{◌≡◌, ◌∷◌, [], List, length};
ghost use Rattle.std.specs.Borrow.{sem};
ghost use base.Stored.{coded_list};
ghost use Rattle.klsm_owned.specs.contracts.owned.OwnedMember.{the_row};
ghost use Rattle.klsm_owned.specs.declared.owned.OwnedMember.{OwnedMember as Owned};
ghost use Rattle.klsm_c.specs.Held.{held_owns};

use crate::raw_box::RawBox;
use klsm_owned::OwnedMember;
use std::alloc::Global;
use std::marker::Model;

/// A pointer to a member, or none. Its drop frees nothing, so it is opened first.
#[repr(C)]
#[derive(Drop)]
pub struct Handle {
    at: *mut u8,
    pub ghost held: { List Owned } by { coded_list the_row.coded },
}

impl Model for Handle {
    ghost also_owns = { λ h. held_owns h.at h.held };
}

impl Handle {
    ghost use Rattle.klsm_c.specs.Lending.{LendsMember};

    /// No member.
    pub fn empty() -> Handle
        ensures { result.held ≡ [] }
    {
        Handle {
            at: std::ptr::null_mut(),
        }
    }

    /// A member, whose type the pointer no longer names.
    pub fn seal(member: RawBox<OwnedMember, Global>) -> Handle
        ensures { result.held ≡ member.value ∷ [] }
    {
        let RawBox { at, alloc: _ } = member;
        Handle { at: at as *mut u8 }
    }

    /// The member again.
    pub fn open(self, alloc: Global) -> RawBox<OwnedMember, Global>
        requires { length self.held ≡ 1 }
        ensures { self.held ≡ result.value ∷ [] }
    {
        let Handle { at } = self;
        RawBox {
            at: at as *mut OwnedMember,
            alloc,
        }
    }

    /// Lends the member where it lies.
    #[inline]
    pub fn member_mut(&mut self) -> &mut OwnedMember
        requires { length self.old.held ≡ 1 }
        ensures* writes_back { sem 𝓛 (LendsMember self.entry result) }
        ensures value { self.old.held ≡ result.now ∷ [] }
    {
        unsafe { &mut *(self.at as *mut OwnedMember) }
    }
}

unsafe impl Send for Handle {}
