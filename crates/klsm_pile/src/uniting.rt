//! How two pieces of a block become one.
ghost use Rattle.std.specs.Prelude.{ℕ, ◌≡◌, ◌+◌, ◌-◌, ◌<◌, ◌≤◌, false, length, vec_capacity, IsTrue, IfSome};
ghost use Rattle.std.specs.List.{AllByRecursion};
ghost use Rattle.klsm_run.specs.Capacity.{heap_room};
ghost use Rattle.klsm_run.specs.Content.{sorted, IsAscending};
ghost use Rattle.klsm_pile.specs.Piece.{PieceState};
ghost use Rattle.klsm_pile.specs.Pieces.{every_item, HaveSame};
ghost use Rattle.klsm_pile.specs.Uniting.{ArePartners};

use crate::piece::Piece;
use klsm_run::level_of;
use std::alloc::Allocator;

// Two pieces of fewer items together become one at once. To hand out so small a union costs more than it saves.
const SMALL: usize = 2048;

/// Which pairs of pieces of a block may become one: any, or those of like length that have few items together, or many.
#[derive(Clone, Copy)]
pub(crate) enum Pairs {
    Any,
    Small,
    Large,
}

/// The last piece becomes one with another of its block and of like length, as long as there is one with which it has
/// few items together, and memory.
pub(crate) fn unite_last<A: Allocator + Copy>(pieces: &mut Vec<Piece<A>, A>)
    requires distinct { IsAscending (sorted (every_item pieces.old.items)) }
    requires few { length (every_item pieces.old.items) ≤ heap_room }
    ensures same { HaveSame pieces.new.items pieces.old.items }
    ensures below { (levels : ℕ)
        → AllByRecursion (λ (p : PieceState). p.level < levels) pieces.old.items
        → AllByRecursion (λ (p : PieceState). p.level < levels) pieces.new.items }
    ensures fewer { length pieces.new.items ≤ length pieces.old.items }
    ensures capacity { vec_capacity pieces.new ≡ vec_capacity pieces.old }
{
    while let Some(at) = partner_of_last(pieces.as_slice()) {
        let last = pieces.len() - 1;
        if !unite_at(pieces, at, last) {
            return;
        }
    }
}

// A piece of the block of the last one, and of like length, if they have few items together.
fn partner_of_last<A: Allocator + Copy>(pieces: &[Piece<A>]) -> Option<usize>
    ensures { IfSome result (λ at. ArePartners pieces.now at (length pieces.now - 1)) }
{
    if pieces.len() == 0 {
        return None;
    }
    let last = pieces.len() - 1;
    for at in 0..last {
        if can_unite(&pieces[at], &pieces[last], Pairs::Small) {
            return Some(at);
        }
    }
    None
}

// Whether two pieces are of one block, of one run each, and such a pair.
fn can_unite<A: Allocator + Copy>(one: &Piece<A>, other: &Piece<A>, pairs: Pairs) -> bool
    ensures { IsTrue result → one.now.level ≡ other.now.level }
{
    one.level() == other.level()
        && one.is_one()
        && other.is_one()
        && match pairs {
            Pairs::Any => true,
            Pairs::Small => are_alike(one.len(), other.len()) && one.len() + other.len() < SMALL,
            Pairs::Large => are_alike(one.len(), other.len()) && one.len() + other.len() >= SMALL,
        }
}

// Whether two lengths have the same level. A piece may be empty.
fn are_alike(one: usize, other: usize) -> bool {
    level_of(one.max(1)) == level_of(other.max(1))
}

/// Two pieces of one block, of one run each, become one: the two that have the fewest items together. It answers
/// whether there were two, and memory for the union.
pub(crate) fn unite_any<A: Allocator + Copy>(pieces: &mut Vec<Piece<A>, A>) -> bool
    requires distinct { IsAscending (sorted (every_item pieces.old.items)) }
    requires few { length (every_item pieces.old.items) ≤ heap_room }
    ensures same { HaveSame pieces.new.items pieces.old.items }
    ensures below { (levels : ℕ)
        → AllByRecursion (λ (p : PieceState). p.level < levels) pieces.old.items
        → AllByRecursion (λ (p : PieceState). p.level < levels) pieces.new.items }
    ensures fewer { IsTrue result → length pieces.new.items + 1 ≡ length pieces.old.items }
    ensures none { result ≡ false → pieces.new.items ≡ pieces.old.items }
    ensures capacity { vec_capacity pieces.new ≡ vec_capacity pieces.old }
{
    match shortest_partners(pieces.as_slice(), Pairs::Any) {
        Some((one, other)) => unite_at(pieces, one, other),
        None => false,
    }
}

/// Of such pairs of one block the two pieces that have the fewest items together.
pub(crate) fn shortest_partners<A: Allocator + Copy>(
    pieces: &[Piece<A>],
    pairs: Pairs,
) -> Option<(usize, usize)>
    ensures { IfSome result (λ found. ArePartners pieces.now found.0 found.1) }
{
    let mut found = None;
    let mut fewest = 0;
    for other in 1..pieces.len() {
        if let Some(one) = shortest_partner_before(pieces, other, pairs) {
            let items = pieces[one].len() + pieces[other].len();
            if found.is_none() || items < fewest {
                found = Some((one, other));
                fewest = items;
            }
        }
    }
    found
}

// The shortest piece before one that is such a pair with it.
fn shortest_partner_before<A: Allocator + Copy>(
    pieces: &[Piece<A>],
    other: usize,
    pairs: Pairs,
) -> Option<usize>
    requires { other < length pieces.now }
    ensures { IfSome result (λ one. ArePartners pieces.now one other) }
{
    let mut found = None;
    let mut fewest = 0;
    for one in 0..other {
        let items = pieces[one].len();
        if can_unite(&pieces[one], &pieces[other], pairs) && (found.is_none() || items < fewest) {
            found = Some(one);
            fewest = items;
        }
    }
    found
}

// Two pieces of one block become one, at the place of the second, if there is memory for it.
fn unite_at<A: Allocator + Copy>(pieces: &mut Vec<Piece<A>, A>, one: usize, other: usize) -> bool
    requires distinct { IsAscending (sorted (every_item pieces.old.items)) }
    requires few { length (every_item pieces.old.items) ≤ heap_room }
    requires partners { ArePartners pieces.old.items one other }
    ensures same { HaveSame pieces.new.items pieces.old.items }
    ensures below { (levels : ℕ)
        → AllByRecursion (λ (p : PieceState). p.level < levels) pieces.old.items
        → AllByRecursion (λ (p : PieceState). p.level < levels) pieces.new.items }
    ensures fewer { IsTrue result → length pieces.new.items + 1 ≡ length pieces.old.items }
    ensures none { result ≡ false → pieces.new.items ≡ pieces.old.items }
    ensures capacity { vec_capacity pieces.new ≡ vec_capacity pieces.old }
{
    let alloc = *pieces.allocator();
    let Some(both) = pieces[other].merge(&pieces[one], alloc) else {
        return false;
    };
    pieces[other] = both;
    pieces.remove(one);
    true
}
