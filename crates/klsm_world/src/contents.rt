//! Contents of parts: ascending lists of items, changed as events say.
ghost use Rattle.std.specs.Prelude.{◌≡◌, ◌+◌, ◌++◌, ◌≤◌, ◌<◌, ◌∷◌, [], length, drop, IfErr, IfOk, position};
ghost use Rattle.std.specs.List.{flat_map, prefix_len, take_while};
ghost use Rattle.std.specs.Vec.{vec_capacity, vec_len};
ghost use Rattle.klsm_run.specs.ItemOrder.{is_same, is_smaller};
ghost use Rattle.klsm_run.specs.Content.{sorted, without, skipped};
ghost use Rattle.klsm_parts.specs.Events.{plus, minus};

use crate::errors::{StepError, WorldError};
use klsm_run::Item;
use klsm_schedules::Items;
use std::alloc::Allocator;

/// A copy of items.
pub(crate) fn copied<A: Allocator>(alloc: A, items: &[Item]) -> Result<Vec<Item, A>, StepError>
    ensures copy { IfOk result (λ copy. copy.items ≡ items.now) }
    ensures refused { IfErr result (λ why. why ≡ StepError.NoMemory) }
{
    let Ok(copy) = items.to_vec(alloc) else {
        return Err(StepError::NoMemory);
    };
    Ok(copy)
}

/// A copy of ascending items with others, which are ascending too, each in its place. It is one
/// pass over both.
pub(crate) fn with_all<A: Allocator>(
    alloc: A,
    items: &[Item],
    joining: &[Item],
) -> Result<Vec<Item, A>, StepError>
    requires sorted { sorted items.now ≡ items.now }
    requires joining_sorted { sorted joining.now ≡ joining.now }
    ensures with_all { IfOk result (λ all. all.items ≡ plus items.now joining.now) }
    ensures refused { IfErr result (λ why. why ≡ StepError.NoMemory) }
{
    let Ok(mut all) = Vec::with_capacity(alloc, items.len().saturating_add(joining.len())) else {
        return Err(StepError::NoMemory);
    };
    let mut at = 0;
    for item in joining {
        at = push_smaller(&mut all, items, at, *item);
        all.push_reserved(*item);
    }
    let Ok(()) = all.extend_from_slice(&items[at..]) else {
        return Err(StepError::NoMemory);
    };
    Ok(all)
}

// Adds the items from `start` on as long as they are smaller than one, and answers where the others
// begin.
fn push_smaller<A: Allocator>(
    all: &mut Vec<Item, A>,
    items: &[Item],
    start: usize,
    item: Item,
) -> usize
    requires start_within { start ≤ length items.now }
    requires room { vec_len all.old + length items.now ≤ vec_capacity all.old + start }
    ensures pushed { all.new.items
        ≡ all.old.items ++ take_while (λ one. is_smaller one item) (drop start items.now) }
    ensures stopped { result
        ≡ start + prefix_len (λ one. is_smaller one item) (drop start items.now) }
    ensures within { result ≤ length items.now }
    ensures capacity { vec_capacity all.old ≤ vec_capacity all.new }
{
    let smaller = first_smaller(&items[start..], item);
    let Ok(()) = all.extend_from_slice(&items[start..start + smaller]) else {
        unreachable!();
    };
    start + smaller
}

// How many items come before the first that is not smaller than one.
fn first_smaller(items: &[Item], item: Item) -> usize
    ensures counted { result ≡ prefix_len (λ one. is_smaller one item) items.now }
    ensures within { result ≤ length items.now }
{
    items.iter().take_while(|other| **other < item).count()
}

/// A copy of items without some of them.
pub(crate) fn without_all<A: Allocator>(
    alloc: A,
    items: &[Item],
    leaving: &[Item],
) -> Result<Vec<Item, A>, StepError>
    ensures without_all { IfOk result (λ rest. rest.items ≡ minus items.now leaving.now) }
    ensures refused { IfErr result (λ why. why ≡ StepError.NoMemory) }
{
    let mut rest = copied(alloc, items)?;
    remove_all_from(&mut rest, leaving);
    Ok(rest)
}

/// Takes an item out, where it is there.
pub(crate) fn remove_from<A: Allocator>(items: &mut Vec<Item, A>, item: Item)
    ensures { items.new.items ≡ without item items.old.items }
{
    if let Some(at) = place_of(items, item) {
        items.remove(at);
    }
}

// Where an item is first among others.
fn place_of(items: &[Item], item: Item) -> Option<usize>
    ensures { result ≡ position (is_same item) items.now }
{
    items.iter().position(|other| *other == item)
}

/// Takes items out.
pub(crate) fn remove_all_from<A: Allocator>(items: &mut Vec<Item, A>, leaving: &[Item])
    ensures { items.new.items ≡ minus items.old.items leaving.now }
{
    for item in leaving {
        remove_from(items, *item);
    }
}

/// How many items are smaller than one.
pub(crate) fn count_smaller(items: &[Item], item: Item) -> usize
    ensures { result ≡ skipped items.now item }
{
    items.iter().filter(|other| **other < item).count()
}

/// How many items of contents are smaller than one.
pub(crate) fn count_all_smaller<A: Allocator>(contents: &[Items<A>], item: Item) -> usize
    requires { length contents.now ≤ 17 }
    ensures { result ≡ skipped (flat_map (λ c. c) contents.now) item }
{
    let mut count = 0;
    for content in contents {
        count += count_smaller(content.as_slice(), item);
    }
    count
}

// How many items contents have.
fn count_all<A: Allocator>(contents: &[Items<A>]) -> usize
    requires { length contents.now ≤ 17 }
    ensures { result ≡ length (flat_map (λ c. c) contents.now) }
{
    let mut count = 0;
    for content in contents {
        count += content.as_slice().len();
    }
    count
}

// The items of contents, one content after another.
fn joined<A: Allocator, B: Allocator>(
    alloc: B,
    contents: &[Items<A>],
) -> Result<Vec<Item, B>, WorldError>
    requires { length contents.now ≤ 17 }
    ensures joined { IfOk result (λ all. all.items ≡ flat_map (λ c. c) contents.now) }
    ensures refused { IfErr result (λ why. why ≡ WorldError.NoMemory) }
{
    let Ok(mut all) = Vec::with_capacity(alloc, count_all(contents)) else {
        return Err(WorldError::NoMemory);
    };
    for content in contents {
        let Ok(()) = all.extend_from_slice(content.as_slice()) else {
            return Err(WorldError::NoMemory);
        };
    }
    Ok(all)
}

/// The items of contents, ascending.
pub(crate) fn all_ascending<A: Allocator, B: Allocator>(
    alloc: B,
    contents: &[Items<A>],
) -> Result<Vec<Item, B>, WorldError>
    requires { length contents.now ≤ 17 }
    ensures ascending { IfOk result (λ all. all.items ≡ sorted (flat_map (λ c. c) contents.now)) }
    ensures refused { IfErr result (λ why. why ≡ WorldError.NoMemory) }
{
    let mut all = joined(alloc, contents)?;
    all.sort_unstable();
    Ok(all)
}
