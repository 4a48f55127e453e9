//! Runs that are refused a growth, made again: what the first ones wrote ends with `no memory`
//! where the others go on, and the second ones go through. With ample memory none is refused; a run
//! that fails one allocation after another refuses each growth here.

use super::replayed::{Counts, Run, run_on, run_over};
use klsm_tool::{End, Pick, Report, ScriptSettings};
use std::alloc::Global;

const TWO_THREADS: ScriptSettings = ScriptSettings {
    threads: 2,
    k: 1,
    refill: 0,
    balance: 0,
    pick: Pick::First,
    seed: 1,
};

// More items than are kept where they ascend, and more shared ones than one block takes. All of
// them skip the one that the other thread keeps, which is spied in the end.
const SCRIPT: &[u8] = b"\
0,i,20,0
0,i,19,0
0,i,18,0
0,i,17,0
0,i,16,0
0,i,15,0
0,i,14,0
0,i,13,0
0,i,12,0
0,i,11,0
1,i,3,0
0,d,,
0,d,,
0,d,,
0,d,,
0,d,,
0,d,,
0,d,,
0,d,,
0,d,,
0,d,,
0,d,,
0,d,,
";

const ANSWERS: &[u8] = b"\
0 i 20 0.0
0 i 19 0.1
0 i 18 0.2
0 i 17 0.3
0 i 16 0.4
0 i 15 0.5
0 i 14 0.6
0 i 13 0.7
0 i 12 0.8
0 i 11 0.9
1 i 3 1.0
0 d 11 0.9 load 0 skip 1
0 d 12 0.8 load 0 skip 1
0 d 13 0.7 load 0 skip 1
0 d 14 0.6 load 0 skip 1
0 d 15 0.5 load 0 skip 1
0 d 16 0.4 load 0 skip 1
0 d 17 0.3 load 0 skip 1
0 d 18 0.2 load 0 skip 1
0 d 19 0.1 load 0 skip 1
0 d 20 0.0 load 0 skip 1
0 d 3 1.0 load 0 skip 0
0 d none
max skip 1 bound 2
";

// The items that each of the two inserts and deletes.
const COUNTS: &[Counts] = &[(10, 11), (1, 0)];

// Room for all of the text, so that writing takes no memory. Where it is refused, it is asked for
// again.
fn room(alloc: Global) -> Option<Vec<u8>> {
    match Vec::with_capacity(alloc, 1000) {
        Ok(text) => Some(text),
        Err(_) => Vec::with_capacity(alloc, 1000).ok(),
    }
}

// Whether a run was refused a growth: it wrote lines of the answers and then said so.
fn lacks_memory(run: &Run) -> bool {
    let text = run.text.as_slice();
    let Some(lines) = text.strip_suffix(b"no memory\n") else {
        return false;
    };
    let is_whole = lines.is_empty() || lines.ends_with(b"\n");
    let written = text.len() as u64;
    let want = Report {
        end: End::NoMemory,
        written,
    };
    is_whole && ANSWERS.starts_with(lines) && run.report == want
}

// A run over a board of its own goes through, at the second try where a growth is refused.
fn goes_through_over(rt: &impl AllocGlobal) -> Option<bool> {
    let run = run_over(rt, SCRIPT, &TWO_THREADS, room(rt.alloc())?)?;
    if run.is(ANSWERS, End::Done) {
        return Some(true);
    }
    let again = run_over(rt, SCRIPT, &TWO_THREADS, room(rt.alloc())?)?;
    Some(lacks_memory(&run) && again.is(ANSWERS, End::Done))
}

#[test]
fn a_board_of_its_own(rt: HostRuntime) {
    assert!(rt; goes_through_over(&rt) == Some(true));
}

// How often the answers have this in them.
fn count_of(text: &[u8], part: &[u8; 3]) -> u64 {
    let found = text.windows(3).filter(|window| *window == part.as_slice());
    found.count() as u64
}

// Whether the members' counts are those that a text tells.
fn are_told(text: &[u8], counts: &[Counts]) -> bool {
    let (mut inserted, mut deleted) = (0u64, 0u64);
    for (of_inserted, of_deleted) in counts {
        inserted = inserted.saturating_add(*of_inserted);
        deleted = deleted.saturating_add(*of_deleted);
    }
    inserted == count_of(text, b" i ") && deleted == count_of(text, b"ip ")
}

// Whether a run goes through over a board that is made for it.
fn is_whole_on(rt: &impl AllocGlobal) -> Option<bool> {
    let (run, counts) = run_on(rt, SCRIPT, &TWO_THREADS, room(rt.alloc())?)?;
    Some(run.is(ANSWERS, End::Done) && counts.as_slice() == COUNTS)
}

// A run over a board that is made for it goes through, at the second try where a growth is refused:
// of the board, of the run, or of the list of counts. The members have made the insertions and
// deletions of which the run wrote, and no others.
fn goes_through_on(rt: &impl AllocGlobal) -> Option<bool> {
    let Some((run, counts)) = run_on(rt, SCRIPT, &TWO_THREADS, room(rt.alloc())?) else {
        return is_whole_on(rt);
    };
    if run.is(ANSWERS, End::Done) {
        return Some(counts.as_slice() == COUNTS);
    }
    let is_right = lacks_memory(&run) && are_told(run.text.as_slice(), counts.as_slice());
    Some(is_right && is_whole_on(rt)?)
}

#[test]
fn a_board_that_is_given(rt: HostRuntime) {
    assert!(rt; goes_through_on(&rt) == Some(true));
}
