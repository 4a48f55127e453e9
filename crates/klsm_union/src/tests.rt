mod made;

use super::*;
use made::{
    Draws, all_done, begun, begun_again, is_collected, is_shown, may_cross, random_run,
    sorted_items,
};
use std::alloc::{AllocError, Allocator, Global};
use std::test::Fail;
use std::thread::{self, Threads};

// Whether a union of two random runs, which is worked on in steps, shows the right items after each step, while items
// leave, and ends as one run. `None` if memory is refused.
fn is_united<A: Allocator + Copy>(
    alloc: A,
    counts: (usize, usize),
    most: usize,
    leaving: usize,
    draws: &mut Draws,
) -> Option<bool> {
    let left = random_run(alloc, 0, counts.0, draws)?;
    let right = random_run(alloc, 1, counts.1, draws)?;
    let all = sorted_items(alloc, &left, &right)?;
    let (mut union, work) = begun(alloc, left, right)?;
    let mut work = Some(work);
    for _ in 0..all.len() + 1 {
        let Some(now) = work else {
            break;
        };
        work = now.carry_on(most);
        union.remove_first(leaving.min(union.len()));
        if !is_shown(&union, all.as_slice()) {
            return Some(false);
        }
    }
    is_collected(union, all.as_slice())
}

#[test]
fn unions_in_steps(rt: HostRuntime) -> Result<(), Fail> {
    let mut draws = Draws(88172645463325252);
    for most in [1, 3, 256] {
        for counts in [(0, 0), (1, 0), (0, 9), (40, 40), (300, 10), (5, 400)] {
            for leaving in [0, 1, 2, 70] {
                let Some(is_right) = is_united(rt.alloc(), counts, most, leaving, &mut draws) else {
                    return Err(Fail::from(AllocError));
                };
                assert!(rt; is_right);
            }
        }
    }
    Ok(())
}

// The same with the work in another thread.
fn is_united_apart<R: Threads>(rt: &R, alloc: Global, draws: &mut Draws) -> Option<bool> {
    let left = random_run(alloc, 0, 300, draws)?;
    let right = random_run(alloc, 1, 200, draws)?;
    let all = sorted_items(alloc, &left, &right)?;
    let (mut union, work) = begun(alloc, left, right)?;
    let (_, union) = thread::join(
        rt,
        move || all_done(work, 7),
        move || {
            for _ in 0..90 {
                union.remove_first(union.len().min(3));
            }
            union
        },
    );
    is_collected(union, all.as_slice())
}

#[test]
fn unions_by_another_thread(rt: HostRuntime) -> Result<(), Fail> {
    let mut draws = Draws(362436069);
    for _ in 0..20 {
        let Some(is_right) = is_united_apart(&rt, rt.alloc(), &mut draws) else {
            return Err(Fail::from(AllocError));
        };
        assert!(rt; is_right);
    }
    Ok(())
}

// Whether a union whose worker is gone, after a step, gives its two runs back, from which another one begins.
fn is_split<A: Allocator + Copy>(alloc: A, draws: &mut Draws) -> Option<bool> {
    let left = random_run(alloc, 0, 30, draws)?;
    let right = random_run(alloc, 1, 50, draws)?;
    let all = sorted_items(alloc, &left, &right)?;
    let (mut union, work) = begun(alloc, left, right)?;
    let was_given_up = union.is_given_up();
    drop(work.carry_on(8)?);
    union.remove_first(union.len().min(20));
    let Err(mut union) = union.collect() else {
        return Some(false);
    };
    if was_given_up || !union.is_given_up() || !is_shown(&union, all.as_slice()) {
        return Some(false);
    }
    let (union, work) = begun_again(alloc, union)?;
    all_done(work, 1000);
    is_collected(union, all.as_slice())
}

#[test]
fn a_dropped_worker(rt: HostRuntime) -> Result<(), Fail> {
    let mut draws = Draws(521288629);
    let Some(is_right) = is_split(rt.alloc(), &mut draws) else {
        return Err(Fail::from(AllocError));
    };
    assert!(rt; is_right);
    Ok(())
}

// Nothing is done with no step, and both may go to any thread.
#[test]
fn no_step(rt: HostRuntime) -> Result<(), Fail> {
    let mut draws = Draws(5783321);
    let (Some(left), Some(right)) = (
        random_run(rt.alloc(), 0, 4, &mut draws),
        random_run(rt.alloc(), 1, 4, &mut draws),
    ) else {
        return Err(Fail::from(AllocError));
    };
    let Some((union, work)) = begun(rt.alloc(), left, right) else {
        return Err(Fail::from(AllocError));
    };
    let (union, work) = (may_cross(union), may_cross(work));
    let rest = work.rest();
    assert_eq!(rt; rest, union.len());
    let Some(work) = work.carry_on(0) else {
        return Err(Fail::from(AllocError));
    };
    assert_eq!(rt; work.rest(), rest);
    Ok(())
}
