//! How an item of a level is found by its rank. It takes no memory.
ghost use Rattle.std.specs.Prelude.{◌≡◌, ◌<◌, length, slice_get, Some};
ghost use Rattle.klsm_run.specs.Content.{sorted, IsAscending};
ghost use Rattle.klsm_pile.specs.Pieces.{at_level, every_item};
ghost use Rattle.klsm_pile.specs.Front.{singles, parts};
ghost use Rattle.klsm_pile.specs.Seeking.{is_over, least_over};

use crate::fetching::lesser;
use crate::front::Front;
use crate::piece::Piece;
use klsm_run::Item;
use std::alloc::Allocator;

/// Item `rank` of a level, counted from its least. It is searched for by one pass for each rank up to that one.
pub(crate) fn item_of_level<A: Allocator + Copy>(
    front: &Front<A>,
    pieces: &[Piece<A>],
    level: usize,
    rank: usize,
) -> Item
    requires distinct { IsAscending (sorted (every_item (parts front.now.items pieces.now))) }
    requires rank { rank < length (at_level level (parts front.now.items pieces.now)) }
    ensures { slice_get (sorted (at_level level (parts front.now.items pieces.now))) rank ≡ Some result }
{
    let Some(mut item) = next_of_level(front, pieces, level, None) else {
        unreachable!();
    };
    for _ in 0..rank {
        let Some(next) = next_of_level(front, pieces, level, Some(item)) else {
            unreachable!();
        };
        item = next;
    }
    item
}

/// The least item of a level that is larger than another one, if there is one.
pub(crate) fn next_of_level<A: Allocator + Copy>(
    front: &Front<A>,
    pieces: &[Piece<A>],
    level: usize,
    bound: Option<Item>,
) -> Option<Item>
    ensures { result ≡ least_over bound (at_level level (parts front.now.items pieces.now)) }
{
    let fetched = next_of_front(front, level, bound);
    match next_of_pieces(pieces, level, bound) {
        Some(item) => Some(lesser(fetched, item)),
        None => fetched,
    }
}

// The least of those that lie in the front.
fn next_of_front<A: Allocator + Copy>(
    front: &Front<A>,
    level: usize,
    bound: Option<Item>,
) -> Option<Item>
    ensures { result ≡ least_over bound (at_level level (singles front.now.items)) }
{
    let mut found = None;
    for at in 0..front.len() {
        let fetched = front.at(at);
        if fetched.level == level && is_above(&fetched.item, bound) {
            found = Some(lesser(found, fetched.item));
        }
    }
    found
}

// The least of those in the pieces.
fn next_of_pieces<A: Allocator + Copy>(
    pieces: &[Piece<A>],
    level: usize,
    bound: Option<Item>,
) -> Option<Item>
    ensures { result ≡ least_over bound (at_level level pieces.now) }
{
    let mut found = None;
    for at in 0..pieces.len() {
        if pieces[at].level() == level {
            if let Some(item) = first_of_piece(&pieces[at], bound) {
                found = Some(lesser(found, item));
            }
        }
    }
    found
}

// The first item of a piece that is larger than another one.
fn first_of_piece<A: Allocator + Copy>(piece: &Piece<A>, bound: Option<Item>) -> Option<Item>
    ensures { result ≡ least_over bound piece.now.items }
{
    let (items, others) = piece.slices();
    let first = first_above(items, bound);
    match first_above(others, bound) {
        Some(item) => Some(lesser(first, item)),
        None => first,
    }
}

// The first item of a run that is larger than another one.
fn first_above(items: &[Item], bound: Option<Item>) -> Option<Item>
    requires { IsAscending items.now }
    ensures { result ≡ least_over bound items.now }
{
    for item in items {
        if is_above(item, bound) {
            return Some(*item);
        }
    }
    None
}

// Whether an item is larger than another one, if there is one.
fn is_above(item: &Item, bound: Option<Item>) -> bool
    ensures { result ≡ is_over bound item.now }
{
    match bound {
        Some(other) => other.is_before(item),
        None => true,
    }
}
