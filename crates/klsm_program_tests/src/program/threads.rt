//! Scripts of one thread and of several, over boards of their own and over boards that are given: the texts,
//! how the runs end, and how many items each member inserted and deleted; some of them by threads that balance. And
//! one of more items than a thread keeps for itself.

use super::replayed::{Counts, run_on, run_over};
use klsm_test_support::add_words;
use klsm_tool::{End, Pick, ScriptSettings};

/// A script, how it ends, its text, and what each member inserted and deleted.
type Worked = (&'static [u8], End, &'static [u8], &'static [Counts]);

/// Scripts that are run alike.
struct Scripts {
    settings: ScriptSettings,
    worked: &'static [Worked],
}

// The shared part has 2 and 3, and the members have 9 and 1: the last candidate is 3, and the deletion
// skips no item of its own thread, so it takes 2. And the same by a thread that inserted none of the
// three items, so it takes 3.
const LAST_OF_TWO: Scripts = Scripts {
    settings: ScriptSettings {
        threads: 2,
        k: 1,
        refill: 0,
        balance: 0,
        pick: Pick::Last,
        seed: 1,
    },
    worked: &[
        (
            b"1,i,3,0\n1,i,2,0\n1,i,9,0\n0,i,1,0\n1,d,,\n",
            End::Done,
            b"\
1 i 3 1.0
1 i 2 1.1
1 i 9 1.2
0 i 1 0.0
1 d 2 1.1 load 0 skip 1
max skip 1 bound 2
",
            &[(1, 0), (3, 1)],
        ),
        (
            b"0,i,3,0\n0,i,2,0\n0,i,1,0\n1,d,,\n",
            End::Done,
            b"\
0 i 3 0.0
0 i 2 0.1
0 i 1 0.2
1 d 3 0.0 load 0 skip 2
max skip 2 bound 2
",
            &[(3, 0), (0, 1)],
        ),
    ],
};

// One thread takes its items in order, whatever candidate is picked.
const LAST_OF_ONE: Scripts = Scripts {
    settings: ScriptSettings {
        threads: 1,
        k: 1,
        refill: 0,
        balance: 0,
        pick: Pick::Last,
        seed: 1,
    },
    worked: &[(
        b"0,i,3,0\n0,i,2,0\n0,i,1,0\n0,d,,\n0,d,,\n0,d,,\n",
        End::Done,
        b"\
0 i 3 0.0
0 i 2 0.1
0 i 1 0.2
0 d 1 0.2 load 0 skip 0
0 d 2 0.1 load 0 skip 0
0 d 3 0.0 load 0 skip 0
max skip 0 bound 1
",
        &[(3, 3)],
    )],
};

// Where no member keeps an item for itself, all of them take the least one.
const NONE_KEPT: Scripts = Scripts {
    settings: ScriptSettings {
        threads: 4,
        k: 0,
        refill: 0,
        balance: 0,
        pick: Pick::Last,
        seed: 1,
    },
    worked: &[(
        b"2,i,5,0\n0,i,4,0\n3,d,,\n1,d,,\n1,d,,\n",
        End::Done,
        b"\
2 i 5 2.0
0 i 4 0.0
3 d 4 0.0 load 0 skip 0
1 d 5 2.0 load 0 skip 0
1 d none
max skip 0 bound 0
",
        &[(1, 0), (0, 1), (1, 0), (0, 1)],
    )],
};

const NOTHING: &[Counts] = &[(0, 0), (0, 0)];

const ONE_ITEM: &[Counts] = &[(1, 0), (0, 0)];

// A member that has nothing takes the upper half of the other's items; and what is no row of a
// script of two threads.
const FIRST_OF_TWO: Scripts = Scripts {
    settings: ScriptSettings {
        threads: 2,
        k: 4,
        refill: 0,
        balance: 0,
        pick: Pick::First,
        seed: 1,
    },
    worked: &[
        (
            b"0,i,10,0\n0,i,20,0\n1,d,,\n0,d,,\n1,d,,\n",
            End::Done,
            b"\
0 i 10 0.0
0 i 20 0.1
1 d 20 0.1 load 0 skip 1
0 d 10 0.0 load 0 skip 0
1 d none
max skip 1 bound 8
",
            &[(2, 1), (0, 1)],
        ),
        (
            b"0,x,1,2",
            End::Refused,
            b"refused row 1: operation\n",
            NOTHING,
        ),
        (
            b"2,i,1,2",
            End::Refused,
            b"refused row 1: thread\n",
            NOTHING,
        ),
        (
            b"0,i,18446744073709551616,0",
            End::Refused,
            b"refused row 1: key\n",
            NOTHING,
        ),
        (b"0,i,5", End::Refused, b"refused row 1: fields\n", NOTHING),
        (b"0,i,5,", End::Refused, b"refused row 1: load\n", NOTHING),
        (b"0,d,1,", End::Refused, b"refused row 1: key\n", NOTHING),
        (
            b"0,i,5,0\n0,q,,\n",
            End::Refused,
            b"0 i 5 0.0\nrefused row 2: operation\n",
            ONE_ITEM,
        ),
        (
            b"0,i,18446744073709551615,0",
            End::Done,
            b"0 i 18446744073709551615 0.0\nmax skip 0 bound 8\n",
            ONE_ITEM,
        ),
        (b"", End::Done, b"max skip 0 bound 8\n", NOTHING),
    ],
};

// Before each of its deletions a thread takes over the lower half of what the other one has. In the script from above
// it is the item that the deletion passes over there. And 20 comes over, which is less than 30, but not 40.
const BALANCED: Scripts = Scripts {
    settings: ScriptSettings {
        threads: 2,
        k: 4,
        refill: 0,
        balance: 1,
        pick: Pick::First,
        seed: 1,
    },
    worked: &[
        (
            b"0,i,10,0\n0,i,20,0\n1,d,,\n0,d,,\n1,d,,\n",
            End::Done,
            b"\
0 i 10 0.0
0 i 20 0.1
1 d 10 0.0 load 0 skip 0
0 d 20 0.1 load 0 skip 0
1 d none
max skip 0 bound 8
",
            &[(2, 1), (0, 1)],
        ),
        (
            b"0,i,30,0\n1,i,20,0\n1,i,40,0\n0,d,,\n0,d,,\n1,d,,\n",
            End::Done,
            b"\
0 i 30 0.0
1 i 20 1.0
1 i 40 1.1
0 d 20 1.0 load 0 skip 0
0 d 30 0.0 load 0 skip 0
1 d 40 1.1 load 0 skip 0
max skip 0 bound 8
",
            &[(1, 2), (2, 1)],
        ),
    ],
};

// Each second deletion alone is one before which a thread balances.
const BALANCED_BY_TWO: Scripts = Scripts {
    settings: ScriptSettings {
        threads: 2,
        k: 4,
        refill: 0,
        balance: 2,
        pick: Pick::First,
        seed: 1,
    },
    worked: &[(
        b"0,i,30,0\n0,i,50,0\n1,i,20,0\n1,i,40,0\n0,d,,\n0,d,,\n",
        End::Done,
        b"\
0 i 30 0.0
0 i 50 0.1
1 i 20 1.0
1 i 40 1.1
0 d 30 0.0 load 0 skip 1
0 d 20 1.0 load 0 skip 0
max skip 1 bound 8
",
        &[(2, 2), (2, 0)],
    )],
};

// The number of threads is the least number that no thread has.
const OF_SIXTEEN: Scripts = Scripts {
    settings: ScriptSettings {
        threads: 16,
        k: 64,
        refill: 0,
        balance: 0,
        pick: Pick::Random,
        seed: 18_446_744_073_709_551_615,
    },
    worked: &[(
        b"15,i,7,1\n0,d,,\n16,d,,\n",
        End::Refused,
        b"15 i 7 15.0\n0 d 7 15.0 load 1 skip 0\nrefused row 3: thread\n",
        &[
            (0, 1),
            (0, 0),
            (0, 0),
            (0, 0),
            (0, 0),
            (0, 0),
            (0, 0),
            (0, 0),
            (0, 0),
            (0, 0),
            (0, 0),
            (0, 0),
            (0, 0),
            (0, 0),
            (0, 0),
            (1, 0),
        ],
    )],
};

/// Whether a script goes so over a board of its own, and over one that is given.
fn goes_so(
    rt: &impl AllocGlobal,
    settings: &ScriptSettings,
    (script, end, text, counts): Worked,
) -> Option<bool> {
    let over = run_over(rt, script, settings, Vec::new(rt.alloc()))?;
    let (on, found) = run_on(rt, script, settings, Vec::new(rt.alloc()))?;
    Some(over.is(text, end) && on.is(text, end) && found.as_slice() == counts)
}

/// Whether all of these scripts do.
fn all_go_so(rt: &impl AllocGlobal, scripts: &Scripts) -> bool {
    for worked in scripts.worked {
        if goes_so(rt, &scripts.settings, *worked) != Some(true) {
            return false;
        }
    }
    true
}

#[test]
fn scripts_of_several_threads(rt: HostRuntime) {
    for scripts in [
        &LAST_OF_TWO,
        &LAST_OF_ONE,
        &NONE_KEPT,
        &FIRST_OF_TWO,
        &BALANCED,
        &BALANCED_BY_TWO,
        &OF_SIXTEEN,
    ] {
        assert!(rt; all_go_so(&rt, scripts));
    }
}

const ONE_THREAD: ScriptSettings = ScriptSettings {
    threads: 1,
    k: 64,
    refill: 0,
    balance: 0,
    pick: Pick::First,
    seed: 1,
};

/// How many items a script has: one more than the thread keeps.
const ITEMS: u64 = 65;

/// Adds insertions to a script, the greatest key first, and their answers to a text.
fn add_insertions(script: &mut Vec<u8>, text: &mut Vec<u8>) -> Option<()> {
    for number in 0..ITEMS {
        let key = ITEMS - 1 - number;
        add_words(script, &[("0,i,", key), (",", number)], "\n")?;
        add_words(text, &[("0 i ", key), (" 0.", number)], "\n")?;
    }
    Some(())
}

/// Adds a deletion for each.
fn add_deletions(script: &mut Vec<u8>, text: &mut Vec<u8>) -> Option<()> {
    for key in 0..ITEMS {
        let number = ITEMS - 1 - key;
        let words = [("0 d ", key), (" 0.", number), (" load ", number)];
        add_words(script, &[], "0,d,,\n")?;
        add_words(text, &words, " skip 0\n")?;
    }
    Some(())
}

fn add_rows(script: &mut Vec<u8>, text: &mut Vec<u8>) -> Option<()> {
    add_insertions(script, text)?;
    add_deletions(script, text)?;
    add_words(text, &[], "max skip 0 bound 64\n")
}

/// Whether they are deleted in order.
fn go_in_order(rt: &impl AllocGlobal) -> Option<bool> {
    let (mut script, mut text) = (Vec::new(rt.alloc()), Vec::new(rt.alloc()));
    add_rows(&mut script, &mut text)?;
    let run = run_over(rt, script.as_slice(), &ONE_THREAD, Vec::new(rt.alloc()))?;
    Some(run.is(text.as_slice(), End::Done))
}

#[test]
fn one_item_more_than_a_thread_keeps(rt: HostRuntime) {
    assert!(rt; go_in_order(&rt) == Some(true));
}
