//! Refusals: an LSM that is full, and a growth that is refused. Nothing changes, and a run comes
//! back.
use klsm_lsm::LsmError;
use klsm_test_support::{Grown, How, Rationed, RationedGrown};
use std::alloc::Global;

// The keys of the runs of an LSM, and of one that is added with so many growths granted; what comes
// of it where it is handed over and where it is copied; and the blocks where it is added.
struct Row {
    runs: &'static [&'static [u64]],
    keys: &'static [u64],
    growths: u64,
    run: Result<(), LsmError>,
    copy: Result<(), LsmError>,
    blocks: &'static [&'static [u64]],
}

impl Row {
    // What comes of it, and the blocks then.
    fn after(&self, how: How) -> (Result<(), LsmError>, &'static [&'static [u64]]) {
        let want = match how {
            How::Run => self.run,
            How::Copy => self.copy,
        };
        match want {
            Ok(()) => (want, self.blocks),
            Err(_) => (want, self.runs),
        }
    }
}

// As many items as the limit of 8, and one more. Then a run of one item, which becomes one with all
// three blocks in one growth, and one of a level that no block has, of which only a copy wants a
// growth.
const ROWS: &[Row] = &[
    Row {
        runs: &[&[1, 2, 3, 4, 5, 6, 7]],
        keys: &[8],
        growths: u64::MAX,
        run: Ok(()),
        copy: Ok(()),
        blocks: &[&[1, 2, 3, 4, 5, 6, 7], &[8]],
    },
    Row {
        runs: &[&[1, 2, 3, 4, 5, 6, 7]],
        keys: &[8, 9],
        growths: u64::MAX,
        run: Err(LsmError::Full),
        copy: Err(LsmError::Full),
        blocks: &[],
    },
    Row {
        runs: &[],
        keys: &[1, 2, 3, 4, 5, 6, 7, 8],
        growths: u64::MAX,
        run: Ok(()),
        copy: Ok(()),
        blocks: &[&[1, 2, 3, 4, 5, 6, 7, 8]],
    },
    Row {
        runs: &[],
        keys: &[1, 2, 3, 4, 5, 6, 7, 8, 9],
        growths: u64::MAX,
        run: Err(LsmError::Full),
        copy: Err(LsmError::Full),
        blocks: &[],
    },
    Row {
        runs: &[&[1, 2, 3, 4], &[5, 6], &[7]],
        keys: &[8],
        growths: 0,
        run: Err(LsmError::NoMemory),
        copy: Err(LsmError::NoMemory),
        blocks: &[],
    },
    Row {
        runs: &[&[1, 2, 3, 4], &[5, 6], &[7]],
        keys: &[8],
        growths: 1,
        run: Ok(()),
        copy: Ok(()),
        blocks: &[&[1, 2, 3, 4, 5, 6, 7, 8]],
    },
    Row {
        runs: &[&[1, 2, 3, 4], &[7]],
        keys: &[5, 6],
        growths: 0,
        run: Ok(()),
        copy: Err(LsmError::NoMemory),
        blocks: &[&[1, 2, 3, 4], &[5, 6], &[7]],
    },
    Row {
        runs: &[&[1, 2, 3, 4], &[7]],
        keys: &[5, 6],
        growths: 1,
        run: Ok(()),
        copy: Ok(()),
        blocks: &[&[1, 2, 3, 4], &[5, 6], &[7]],
    },
];

// Whether a row's run is added so, or refused and nothing changes.
fn adds<'a>(
    heap: &'a Rationed<Global>,
    grown: &mut RationedGrown<'a>,
    how: How,
    row: &Row,
) -> Option<bool> {
    grown.refill(heap, how, row.runs)?;
    let answer = grown.add(heap, how, row.keys, row.growths)?;
    let (want, blocks) = row.after(how);
    Some(answer == want && grown.has(blocks))
}

// Whether each row goes so, by both ways.
fn all_go<'a>(heap: &'a Rationed<Global>, grown: &mut RationedGrown<'a>) -> bool {
    for row in ROWS {
        for how in [How::Run, How::Copy] {
            if adds(heap, grown, how, row) != Some(true) {
                return false;
            }
        }
    }
    true
}

#[test]
fn full_or_without_memory(rt: HostRuntime) {
    let heap = Rationed::new(rt.alloc());
    let mut grown: RationedGrown = Grown::new();
    assert!(rt; all_go(&heap, &mut grown));
}
