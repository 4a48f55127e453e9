//! How the front comes to have as many items as it needs.
ghost use Rattle.std.specs.Prelude.{ℕ, Bool, List, ◌≡◌, ◌⊎◌, ◌<◌, ◌≤◌, [], length, max, vec_capacity};
ghost use Rattle.std.specs.List.{AllByRecursion, remove};
ghost use Rattle.klsm_pile.specs.Piece.{PieceState};
ghost use Rattle.klsm_pile.specs.Pieces.{items_where, every_item, blocks_below, HaveSame};
ghost use Rattle.klsm_pile.specs.Front.{parts};
ghost use Rattle.klsm_pile.specs.Piles.{IsConsistent};

use crate::fetching::fill;
use crate::front::Front;
use crate::piece::Piece;
use std::alloc::Allocator;

/// If the front has fewer items than it needs, it gets `most`, or all. No piece is empty then.
#[inline]
pub(crate) fn refill<A: Allocator + Copy>(
    front: &mut Front<A>,
    pieces: &mut Vec<Piece<A>, A>,
    needed: usize,
    most: usize,
)
    requires held { (levels : ℕ) × (counts : List ℕ)
        × IsConsistent levels front.old.items pieces.old.items counts }
    requires order { needed ≤ most }
    requires room { most ≤ front.old.capacity }
    ensures held { (levels : ℕ) (counts : List ℕ)
        → IsConsistent levels front.old.items pieces.old.items counts
        → IsConsistent levels front.new.items pieces.new.items counts }
    ensures same { HaveSame (parts front.new.items pieces.new.items)
        (parts front.old.items pieces.old.items) }
    ensures enough { (needed ≤ length front.new.items) ⊎ (every_item pieces.new.items ≡ []) }
    ensures few { length front.new.items ≤ max most (length front.old.items) }
    ensures capacity { front.new.capacity ≡ front.old.capacity }
{
    if front.len() < needed {
        fill(front, pieces, most);
        drop_empty(pieces);
    }
}

// Pieces with no item go.
fn drop_empty<A: Allocator + Copy>(pieces: &mut Vec<Piece<A>, A>)
    ensures same { (test : ℕ → Bool) → items_where test pieces.new.items ≡ items_where test pieces.old.items }
    ensures below { (levels : ℕ)
        → AllByRecursion (λ (p : PieceState). p.level < levels) pieces.old.items
        → AllByRecursion (λ (p : PieceState). p.level < levels) pieces.new.items }
    ensures capacity { vec_capacity pieces.new ≡ vec_capacity pieces.old }
{
    let mut at = 0;
    while at < pieces.len() {
        if pieces[at].len() == 0 {
            remove_piece(pieces, at);
        } else {
            at += 1;
        }
    }
}

// The piece at a place goes.
fn remove_piece<A: Allocator + Copy>(pieces: &mut Vec<Piece<A>, A>, at: usize)
    requires { at < length pieces.old.items }
    ensures items { pieces.new.items ≡ remove pieces.old.items at }
    ensures capacity { vec_capacity pieces.new ≡ vec_capacity pieces.old }
{
    pieces.remove(at);
}
