//! How the union of two pieces is handed out, and taken over once it was handed in.
ghost use Rattle.std.specs.Prelude.{ℕ, ◌≡◌, ◌<◌, ◌≤◌, length, vec_capacity};
ghost use Rattle.std.specs.List.{AllByRecursion};
ghost use Rattle.klsm_run.specs.Capacity.{heap_room};
ghost use Rattle.klsm_run.specs.Content.{sorted, IsAscending};
ghost use Rattle.klsm_pile.specs.Piece.{PieceState};
ghost use Rattle.klsm_pile.specs.Pieces.{every_item, HaveSame};

use crate::piece::Piece;
use crate::uniting::{Pairs, shortest_partners};
use klsm_union::{Spent, UnionBlank, Work};
use std::alloc::Allocator;

/// The work that makes one run of two pieces of one block, of one run each: of those of like length that have many
/// items together, the two that have the fewest. The blank comes back if there are none. If a run has too many owners,
/// nothing comes.
pub(crate) fn hand_out<A: Allocator + Copy>(
    pieces: &mut Vec<Piece<A>, A>,
    blank: UnionBlank<A>,
) -> Result<Work<A>, Option<UnionBlank<A>>>
    requires distinct { IsAscending (sorted (every_item pieces.old.items)) }
    requires few { length (every_item pieces.old.items) ≤ heap_room }
    ensures same { HaveSame pieces.new.items pieces.old.items }
    ensures below { (levels : ℕ)
        → AllByRecursion (λ (p : PieceState). p.level < levels) pieces.old.items
        → AllByRecursion (λ (p : PieceState). p.level < levels) pieces.new.items }
    ensures fewer { length pieces.new.items ≤ length pieces.old.items }
    ensures capacity { vec_capacity pieces.new ≡ vec_capacity pieces.old }
{
    let Some((one, other)) = shortest_partners(pieces.as_slice(), Pairs::Large) else {
        return Err(Some(blank));
    };
    let first = pieces.remove(one);
    // Those behind it are one place further in front now.
    match pieces[other - 1].unite(first, blank) {
        Ok(work) => Ok(work),
        Err(first) => {
            pieces.push_reserved(first);
            Err(None)
        }
    }
}

/// Takes over the first union that was handed in, if there is one: what may be freed then. Pieces whose worker is gone
/// are two again, as far as the list has room.
pub(crate) fn collect<A: Allocator + Copy>(pieces: &mut Vec<Piece<A>, A>) -> Option<Spent<A>>
    ensures same { HaveSame pieces.new.items pieces.old.items }
    ensures below { (levels : ℕ)
        → AllByRecursion (λ (p : PieceState). p.level < levels) pieces.old.items
        → AllByRecursion (λ (p : PieceState). p.level < levels) pieces.new.items }
    ensures capacity { vec_capacity pieces.new ≡ vec_capacity pieces.old }
{
    for at in 0..pieces.len() {
        let spent = collect_at(pieces, at);
        if spent.is_some() {
            return spent;
        }
    }
    None
}

// Takes over the union that a piece is, if it was handed in. If its worker is gone, it is two pieces again.
fn collect_at<A: Allocator + Copy>(pieces: &mut Vec<Piece<A>, A>, at: usize) -> Option<Spent<A>>
    requires { at < length pieces.old.items }
    ensures same { HaveSame pieces.new.items pieces.old.items }
    ensures below { (levels : ℕ)
        → AllByRecursion (λ (p : PieceState). p.level < levels) pieces.old.items
        → AllByRecursion (λ (p : PieceState). p.level < levels) pieces.new.items }
    ensures more { length pieces.old.items ≤ length pieces.new.items }
    ensures capacity { vec_capacity pieces.new ≡ vec_capacity pieces.old }
{
    let piece = &mut pieces[at];
    let is_given_up = piece.is_given_up();
    let spent = piece.collect();
    if is_given_up && spent.is_none() {
        split_at(pieces, at);
    }
    spent
}

// A piece of two runs becomes two pieces, if the list has room for one more.
fn split_at<A: Allocator + Copy>(pieces: &mut Vec<Piece<A>, A>, at: usize)
    requires { at < length pieces.old.items }
    ensures same { HaveSame pieces.new.items pieces.old.items }
    ensures below { (levels : ℕ)
        → AllByRecursion (λ (p : PieceState). p.level < levels) pieces.old.items
        → AllByRecursion (λ (p : PieceState). p.level < levels) pieces.new.items }
    ensures more { length pieces.old.items ≤ length pieces.new.items }
    ensures capacity { vec_capacity pieces.new ≡ vec_capacity pieces.old }
{
    if pieces.len() == pieces.capacity() {
        return;
    }
    if let Some(other) = pieces[at].split() {
        pieces.push_reserved(other);
    }
}
