ghost use Rattle.std.specs.Prelude.{◌≡◌, ◌≤◌, IfSome};
ghost use Rattle.klsm_handoff.specs.Ends.{giver_terms, taker_terms};

use super::*;
use std::alloc::Global;
use std::sync::Arc;
use std::sync::atomic::{AtomicU64, Ordering};
use std::test::Fail;
use std::thread;

// The value is at most so much.
#[derive(Drop)]
struct AtMost(u64);

impl Terms<u64> for AtMost {
    ghost met_by = { λ most value. value ≤ most.0 };
}

#[derive(Drop)]
struct Anything;

impl Terms<Counted> for Anything {
    ghost met_by = { λ _ _. Unit {0} };
}

struct Counted {
    drops: Arc<AtomicU64>,
}

impl Drop for Counted {
    fn drop(self) {
        let Counted { drops } = self;
        drops.fetch_add(1, Ordering::SeqCst);
    }
}

#[test]
fn a_value_comes_once(rt: HostRuntime) -> Result<(), Fail> {
    let (giver, mut taker) = Blank::<u64, AtMost>::new(rt.alloc())?.agree(&AtMost(9));
    assert_eq!(rt; taker.try_take(), None);
    assert!(rt; !taker.is_given_up());
    giver.give(7);
    assert!(rt; taker.is_given_up());
    assert_eq!(rt; taker.try_take(), Some(7));
    assert_eq!(rt; taker.try_take(), None);
    Ok(())
}

#[test]
fn a_value_crosses_threads(rt: HostRuntime) -> Result<(), Fail> {
    for most in 0..200u64 {
        let terms = AtMost(most);
        let (giver, taker) = Blank::<u64, AtMost>::new(rt.alloc())?.agree(&terms);
        let (_, mut taker) = thread::join(
            &rt,
            move ||
                requires { (giver_terms giver).0 ≡ most }
            { giver.give(most) },
            move || {
                let mut taker = taker;
                let early = taker.try_take();
                (early, taker)
            },
        );
        let late = taker.1.try_take();
        assert_eq!(rt; taker.0.or(late), Some(most));
    }
    Ok(())
}

fn give_or_not(giver: Giver<Counted, Anything>, value: Option<Counted>) {
    if let Some(value) = value {
        giver.give(value);
    }
}

#[test]
fn each_value_is_dropped_once(rt: HostRuntime) -> Result<(), Fail> {
    let drops = Arc::new(rt.alloc(), AtomicU64::new(0))?;
    for case in 0..16u32 {
        drops.store(0, Ordering::SeqCst);
        let (giver, mut taker) = Blank::<Counted, Anything>::new(rt.alloc())?.agree(&Anything);
        let value = if case % 2 == 0 {
            Some(Counted {
                drops: Arc::try_clone(&drops)?,
            })
        } else {
            None
        };
        let given = value.is_some();
        match case / 2 % 4 {
            0 => {
                give_or_not(giver, value);
                assert!(rt; taker.try_take().is_some() == given);
                drop(taker);
            }
            1 => {
                give_or_not(giver, value);
                drop(taker);
            }
            2 => {
                drop(taker);
                give_or_not(giver, value);
            }
            _ => {
                thread::join(&rt, move || give_or_not(giver, value), move || drop(taker));
            }
        }
        assert!(rt; drops.load(Ordering::SeqCst) == if given { 1 } else { 0 });
    }
    Ok(())
}
