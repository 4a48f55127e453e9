//! An allocator that grants a set number of growths.
//!
//! A test that refuses each growth of a call in turn allows none, then one, and so on, until a call
//! was refused nothing:
//!
//! ```text
//! let heap = Rationed::new(rt.alloc());
//! for grants in 0..u64::MAX {
//!     heap.allow(grants);
//!     let outcome = call(&heap);
//!     if !heap.has_refused() {
//!         break;
//!     }
//!     // The outcome is a refusal, and nothing has changed.
//! }
//! ```
ghost use Rattle.std.specs.Prelude.{◌≡◌, ◌-◌, ◌<◌, ◌↔◌, false, IsTrue};

use std::alloc::{AllocError, Allocator};
use std::cell::Cell;

/// Grants a set number of the growths asked of it, and refuses those after it. It passes what it
/// grants on to `inner`.
///
/// Each block made counts as one growth: the first of a collection, and each move to another block,
/// a smaller one included.
#[derive(Drop)]
pub struct Rationed<B: Allocator> {
    inner: B,
    ration: Cell<Ration>,
}

impl<B: Allocator> Rationed<B> {
    /// Grants more than any test asks for, until `allow` is called.
    pub fn new(inner: B) -> Rationed<B> {
        Rationed {
            inner,
            ration: Cell::new(Ration::new(u64::MAX)),
        }
    }

    /// Grants the next `grants` growths, and refuses each one after them.
    pub fn allow(&self, grants: u64) {
        self.ration.set(Ration::new(grants));
    }

    /// Whether a growth was refused since the last `allow`.
    pub fn has_refused(&self) -> bool {
        self.ration.get().has_refused
    }
}

unsafe impl<B: Allocator> Allocator for Rationed<B> {
    ghost dealloc_token = { λ heap ty ptr. B.dealloc_token heap.inner ty ptr };

    fn allocate(&self, size: usize, align: usize) -> Result<*mut u8, AllocError> {
        if !grant(&self.ration) {
            return Err(AllocError);
        }
        self.inner.allocate(size, align)
    }

    unsafe fn deallocate(&self, ptr: *mut u8, size: usize, align: usize) {
        self.inner.deallocate(ptr, size, align);
    }
}

// The grants left, and whether more was asked for.
#[derive(Clone, Copy)]
struct Ration {
    left: u64,
    has_refused: bool,
}

impl Ration {
    // So many grants, and nothing refused.
    fn new(grants: u64) -> Ration
        ensures left { result.left ≡ grants }
        ensures fresh { result.has_refused ≡ false }
    {
        Ration {
            left: grants,
            has_refused: false,
        }
    }

    // Takes a grant where one is left.
    fn take(&mut self) -> bool
        ensures taken { IsTrue result ↔ 0 < self.old.left }
        ensures left { self.new.left ≡ self.old.left - 1 }
        ensures granted { IsTrue result → self.new.has_refused ≡ self.old.has_refused }
        ensures refused { self.old.left ≡ 0 → IsTrue self.new.has_refused }
    {
        let Some(left) = self.left.checked_sub(1) else {
            self.has_refused = true;
            return false;
        };
        self.left = left;
        true
    }
}

// Takes a grant behind a `&`. No clause can say what a cell holds: `Ration::take` has them.
fn grant(cell: &Cell<Ration>) -> bool {
    let mut ration = cell.get();
    let granted = ration.take();
    cell.set(ration);
    granted
}
