//! What a piece has its items in.
ghost use Rattle.std.specs.Prelude.{◌≡◌, ◌+◌, ◌≤◌, ◌++◌, length, IfSome, IfNone, OnOk, IfErr, OnErr};
ghost use Rattle.klsm_run.specs.Capacity.{heap_room};
ghost use Rattle.klsm_run.specs.Content.{sorted, ShareNone};
ghost use Rattle.klsm_pile.specs.Body.{body_items, IsFirst};

use klsm_run::{HeapRun, Item};
use klsm_union::{SharedRun, Spent, Union, UnionBlank, Work};
use std::alloc::Allocator;

/// One run, or two that another thread makes one, or neither while it is taken out to be changed.
#[derive(Drop)]
pub(crate) enum Body<A: Allocator + Copy> {
    One(SharedRun<A>),
    Two(Union<A>),
    Gone,
}

/// The least item of a body, if there is one.
#[inline]
pub(crate) fn first_item<A: Allocator + Copy>(body: &Body<A>) -> Option<Item>
    ensures { IsFirst result (body_items body.now) }
{
    match body {
        Body::One(run) => run.first(),
        Body::Two(union) => union.first(),
        Body::Gone => None,
    }
}

/// The items of two runs as one run, if there is memory for it.
pub(crate) fn merged<A: Allocator + Copy>(
    left: &SharedRun<A>,
    right: &SharedRun<A>,
    alloc: A,
) -> Option<SharedRun<A>>
    requires apart { ShareNone left.now right.now }
    requires room { length left.now + length right.now ≤ heap_room }
    ensures { IfSome result (λ both. both ≡ sorted (left.now ++ right.now)) }
{
    let count = left.len() + right.len();
    let Ok(mut both) = HeapRun::empty_for(alloc, count) else {
        return None;
    };
    both.append_least(left.as_slice(), right.as_slice(), count);
    SharedRun::new(alloc, both).ok()
}

/// Two bodies of one run each as one of two, and the work that makes one run of these. Both come back if one of them is
/// a union, or if a run has too many owners.
pub(crate) fn united<A: Allocator + Copy>(
    body: Body<A>,
    other: Body<A>,
    blank: UnionBlank<A>,
) -> (Body<A>, Result<Work<A>, Body<A>>)
    requires apart { ShareNone (body_items body) (body_items other) }
    requires room { length (body_items body) + length (body_items other) ≤ heap_room }
    ensures union { OnOk result.1 (body_items result.0
        ≡ sorted (body_items body ++ body_items other)) }
    ensures same { OnErr result.1 (body_items result.0 ≡ body_items body) }
    ensures back { IfErr result.1 (λ back. body_items back ≡ body_items other) }
{
    match (body, other) {
        (Body::One(left), Body::One(right)) => match Union::begin(left, right, blank) {
            Ok((union, work)) => (Body::Two(union), Ok(work)),
            Err((left, right)) => (Body::One(left), Err(Body::One(right))),
        },
        (body, other) => (body, Err(other)),
    }
}

/// One run in place of two whose union was handed over, and what may be freed then.
pub(crate) fn collected<A: Allocator + Copy>(body: Body<A>) -> (Body<A>, Option<Spent<A>>)
    ensures { body_items result.0 ≡ body_items body }
{
    match body {
        Body::Two(union) => match union.collect() {
            Ok((run, spent)) => (Body::One(run), Some(spent)),
            Err(union) => (Body::Two(union), None),
        },
        body => (body, None),
    }
}

/// One of two runs, and the other one.
pub(crate) fn halved<A: Allocator + Copy>(body: Body<A>) -> (Body<A>, Option<SharedRun<A>>)
    ensures two { IfSome result.1 (λ run. sorted (body_items result.0 ++ run) ≡ body_items body) }
    ensures one { IfNone result.1 (body_items result.0 ≡ body_items body) }
{
    match body {
        Body::Two(union) => {
            let (left, right) = union.split();
            (Body::One(left), Some(right))
        }
        body => (body, None),
    }
}
