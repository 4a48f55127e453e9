//! A value on the heap, which a contract sees as the value alone.
ghost use Rattle.std.specs.Prelude.{◌≡◌, IfOk};
ghost use Rattle.std.specs.Borrow.{Lends, sem};
ghost use Rattle.klsm_board.specs.contracts.boxed.Boxed.{the_row};

use std::alloc::{AllocError, Global};
use std::marker::Model;

/// A box whose place no contract speaks of.
#[derive(Drop)]
pub struct Boxed<T> {
    spaced: Box<Spaced<T>>,
    // The slots of a table lie side by side. With this each has a line of the cache, so who takes one out and puts it back
    // takes no other one from its member.
    line: [u64; 6],
}

// A value, and behind it two lines of the cache that nobody touches, since processors fetch lines in pairs.
// So what one member changes at each call lies off what another one does, wherever the allocator puts
// the two.
#[derive(Drop)]
struct Spaced<T> {
    value: T,
    room: [u64; 16],
}

impl<T> Model for Boxed<T> {
    ghost use Rattle.std.specs.Prelude.{◌≡◌};

    ghost Value = { T };

    ghost view = { λ boxed. boxed.spaced.value.value };
}

impl<T: Drop> Boxed<T> {
    /// Moves a value to the heap.
    pub fn new(alloc: Global, value: T) -> Result<Boxed<T>, AllocError>
        ensures { IfOk result (λ boxed. boxed ≡ value) }
    {
        Ok(Boxed {
            spaced: Box::new(
                alloc,
                Spaced {
                    value,
                    room: [0; 16],
                },
            )?,
            line: [0; 6],
        })
    }
}

impl<T> Boxed<T> {
    /// The value.
    #[inline]
    pub fn get(&self) -> &T
        ensures { result.now ≡ self.now }
    {
        &self.spaced.value
    }

    /// The value, to be changed in place.
    #[inline]
    pub fn get_mut(&mut self) -> &mut T
        ensures* writes_back { sem 𝓛 (Lends (the_row T.row) T.row self.entry result (λ value. value)) }
        ensures value { result.now ≡ self.old }
    {
        &mut self.spaced.value
    }
}
