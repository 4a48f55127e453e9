//! How the blocks of a pile are printed.

use crate::front::Front;
use crate::piece::Piece;
use crate::seeking::next_of_level;
use std::alloc::Allocator;
use std::fmt;

/// Prints the list of the blocks, the greatest level first, each as the list of its items. It takes no memory: each
/// item is searched for, by one pass.
pub(crate) fn print_blocks<A: Allocator + Copy, W: fmt::Write>(
    front: &Front<A>,
    pieces: &[Piece<A>],
    counts: &[usize],
    f: &mut fmt::Formatter<W>,
) -> fmt::Result {
    let mut list = f.debug_list();
    let mut level = counts.len();
    while level > 0 {
        level -= 1;
        if counts[level] != 0 {
            list.entry(&Block {
                front,
                pieces,
                level,
            });
        }
    }
    list.finish()
}

// The items of a level, lent to be printed.
#[derive(Drop)]
struct Block<'a, A: Allocator + Copy> {
    front: &'a Front<A>,
    pieces: &'a [Piece<A>],
    level: usize,
}

// It prints as the list of its items, the least first.
impl<A: Allocator + Copy> fmt::Debug for Block<'_, A> {
    fn fmt<W: fmt::Write>(&self, f: &mut fmt::Formatter<W>) -> fmt::Result {
        let mut list = f.debug_list();
        let mut last = None;
        while let Some(item) = next_of_level(self.front, self.pieces, self.level, last) {
            list.entry(&item);
            last = Some(item);
        }
        list.finish()
    }
}
