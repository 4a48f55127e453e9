//! A box as its pointer: for a value whose pointer goes out of Rattle, to C, and comes back.
//!
//! C can keep a pointer, but no box. So a box is taken apart into its pointer and its allocator, and is made
//! again from the two:
//!
//! ```text
//! let RawBox { at, alloc: _ } = RawBox::of(Box::new(alloc, value)?);    // `at` goes out
//! let value = RawBox { at, alloc }.into_box();                          // and has come back
//! ```
//!
//! A `RawBox` owns what the box owned: the block at `at` with the value in it, and the right to free that
//! block by `alloc` (`also_owns`). So one can be made from its fields only where a proof has both. It is not
//! `Drop`: code that lets one go is refused, so that no block is lost unseen.
//!
//! - **The value is the box's**: the contracts of `of` and `into_box`.
//! - **It costs next to nothing**: the pointer and the allocator are moved. No memory is asked for or freed,
//!   and the value stays where it is.
//!
//! The check writes no proof for a function that reaches a raw pointer. So both functions are proved by hand
//! (`proofs/RawBox`), and so has to be each that takes a `RawBox` apart or makes one from its fields.
ghost use Rattle.std.specs.Prelude.{◌≡◌};
ghost use Rattle.std_alloc.specs.Box.Ownership.{box_owns};

use std::alloc::Allocator;
use std::marker::Model;

/// A box that was taken apart. `value` is what lies at `at`, and is for the proof alone.
pub struct RawBox<T, A: Allocator> {
    pub at: *mut T,
    pub alloc: A,
    pub ghost value: { T },
}

impl<T, A: Allocator> Model for RawBox<T, A> {
    ghost also_owns = { λ b. box_owns (A.dealloc_token b.alloc) T.row b.at b.value };
}

impl<T: Drop, A: Allocator> RawBox<T, A> {
    /// A box as its pointer.
    pub fn of(value: Box<T, A>) -> RawBox<T, A>
        ensures { result.value ≡ value.value }
    {
        let (at, alloc) = Box::into_raw_with_allocator(value);
        RawBox { at, alloc }
    }

    /// The box again.
    pub fn into_box(self) -> Box<T, A>
        ensures { result.value ≡ self.value }
    {
        let RawBox { at, alloc } = self;
        unsafe { Box::from_raw(alloc, at) }
    }
}
