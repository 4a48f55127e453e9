//! The causes for which calls are refused, in the order in which they are tried. Each match has an arm for each variant
//! and no other, so another variant does not compile. A place is the number of causes that are tried before.

use klsm_board::{Busy, FinishError, HoldError, InsertError, MakeError, TryInsertError};
use klsm_knapsack::{ReadError, SolveError};
use klsm_lsm::LsmError;
use klsm_run::RunError;
use klsm_tool::{End, Pick};
use klsm_world::{StepError, WorldError};

fn place_in_runs(why: RunError) -> usize {
    match why {
        RunError::NoMemory => 0,
    }
}

fn place_in_lsms(why: LsmError) -> usize {
    match why {
        LsmError::Full => 0,
        LsmError::NoMemory => 1,
    }
}

#[test]
fn causes_of_runs_and_lsms(rt: HostRuntime) {
    assert!(rt; place_in_runs(RunError::NoMemory) == 0);
    assert!(rt; place_in_lsms(LsmError::Full) == 0);
    assert!(rt; place_in_lsms(LsmError::NoMemory) == 1);
}

fn place_in_steps(why: StepError) -> usize {
    match why {
        StepError::NoSuchPart => 0,
        StepError::Held(_by) => 1,
        StepError::NotHeld => 2,
        StepError::WrongEvent => 3,
        StepError::NoMemory => 4,
    }
}

fn place_in_worlds(why: WorldError) -> usize {
    match why {
        WorldError::BadThreads => 0,
        WorldError::BadK => 1,
        WorldError::At(_index, _why) => 2,
        WorldError::NoMemory => 3,
    }
}

const OF_STEPS: [StepError; 5] = [
    StepError::NoSuchPart,
    StepError::Held(0),
    StepError::NotHeld,
    StepError::WrongEvent,
    StepError::NoMemory,
];

const OF_WORLDS: [WorldError; 4] = [
    WorldError::BadThreads,
    WorldError::BadK,
    WorldError::At(0, StepError::NotHeld),
    WorldError::NoMemory,
];

#[test]
fn causes_of_worlds(rt: HostRuntime) {
    for (before, why) in OF_STEPS.iter().enumerate() {
        assert!(rt; place_in_steps(*why) == before);
    }
    for (before, why) in OF_WORLDS.iter().enumerate() {
        assert!(rt; place_in_worlds(*why) == before);
    }
}

fn place_in_making(why: MakeError) -> usize {
    match why {
        MakeError::BadThreads => 0,
        MakeError::BadK => 1,
        MakeError::BadQuota => 2,
        MakeError::NoMemory => 3,
    }
}

fn place_in_insertions(why: InsertError) -> usize {
    match why {
        InsertError::Spent => 0,
        InsertError::Full => 1,
        InsertError::NoMemory => 2,
    }
}

fn place_in_tries(why: TryInsertError) -> usize {
    match why {
        TryInsertError::Spent => 0,
        TryInsertError::Busy(Busy { lock: _, by: _ }) => 1,
        TryInsertError::Full => 2,
        TryInsertError::NoMemory => 3,
    }
}

fn place_in_holds(why: HoldError) -> usize {
    match why {
        HoldError::NoSuchLock => 0,
        HoldError::Busy(Busy { lock: _, by: _ }) => 1,
    }
}

fn place_in_finishing(why: FinishError) -> usize {
    match why {
        FinishError::Missing(_number) => 0,
        FinishError::NoMemory => 1,
    }
}

const OF_MAKING: [MakeError; 4] = [
    MakeError::BadThreads,
    MakeError::BadK,
    MakeError::BadQuota,
    MakeError::NoMemory,
];

const OF_INSERTIONS: [InsertError; 3] = [
    InsertError::Spent,
    InsertError::Full,
    InsertError::NoMemory,
];

const OF_TRIES: [TryInsertError; 4] = [
    TryInsertError::Spent,
    TryInsertError::Busy(Busy { lock: 0, by: 0 }),
    TryInsertError::Full,
    TryInsertError::NoMemory,
];

const OF_HOLDS: [HoldError; 2] = [
    HoldError::NoSuchLock,
    HoldError::Busy(Busy { lock: 0, by: 0 }),
];

const OF_FINISHING: [FinishError; 2] = [FinishError::Missing(0), FinishError::NoMemory];

#[test]
fn causes_of_insertions(rt: HostRuntime) {
    for (before, why) in OF_INSERTIONS.iter().enumerate() {
        assert!(rt; place_in_insertions(*why) == before);
    }
    for (before, why) in OF_TRIES.iter().enumerate() {
        assert!(rt; place_in_tries(*why) == before);
    }
}

#[test]
fn causes_of_boards(rt: HostRuntime) {
    for (before, why) in OF_MAKING.iter().enumerate() {
        assert!(rt; place_in_making(*why) == before);
    }
    for (before, why) in OF_HOLDS.iter().enumerate() {
        assert!(rt; place_in_holds(*why) == before);
    }
    for (before, why) in OF_FINISHING.iter().enumerate() {
        assert!(rt; place_in_finishing(*why) == before);
    }
}

fn place_in_reading(why: ReadError) -> usize {
    match why {
        ReadError::BadRow(_row) => 0,
        ReadError::TooMany => 1,
        ReadError::BadNumber(_row) => 2,
        ReadError::OutOfRange(_row) => 3,
        ReadError::ReadFault => 4,
        ReadError::NoMemory => 5,
    }
}

fn place_in_solving(why: SolveError) -> usize {
    match why {
        SolveError::BadThreads => 0,
        SolveError::BadK => 1,
        SolveError::Full => 2,
        SolveError::NoMemory => 3,
    }
}

const OF_READING: [ReadError; 6] = [
    ReadError::BadRow(1),
    ReadError::TooMany,
    ReadError::BadNumber(1),
    ReadError::OutOfRange(1),
    ReadError::ReadFault,
    ReadError::NoMemory,
];

const OF_SOLVING: [SolveError; 4] = [
    SolveError::BadThreads,
    SolveError::BadK,
    SolveError::Full,
    SolveError::NoMemory,
];

#[test]
fn causes_of_searches(rt: HostRuntime) {
    for (before, why) in OF_READING.iter().enumerate() {
        assert!(rt; place_in_reading(*why) == before);
    }
    for (before, why) in OF_SOLVING.iter().enumerate() {
        assert!(rt; place_in_solving(*why) == before);
    }
}

// The status of the program after a run that ended so.
fn status_of(end: End) -> u8 {
    match end {
        End::Done => 0,
        End::Refused => 1,
        End::Full => 3,
        End::NoMemory => 3,
        End::ReadFault => 4,
        End::WriteFault => 4,
    }
}

// The word of the command line for a pick.
fn word_of(pick: Pick) -> &'static str {
    match pick {
        Pick::First => "first",
        Pick::Last => "last",
        Pick::Random => "random",
    }
}

#[test]
fn ends_and_picks(rt: HostRuntime) {
    assert!(rt; status_of(End::Done) == 0 && status_of(End::Refused) == 1);
    assert!(rt; status_of(End::Full) == 3 && status_of(End::NoMemory) == 3);
    assert!(rt; status_of(End::ReadFault) == 4 && status_of(End::WriteFault) == 4);
    assert!(rt; word_of(Pick::First) == "first" && word_of(Pick::Last) == "last");
    assert!(rt; word_of(Pick::Random) == "random");
}
