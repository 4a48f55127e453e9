//! Inputs and outputs that fail, in each command.

use super::calls::{Command, report_of};
use klsm_test_support::{Input, Output};
use klsm_tool::{End, Report};
use std::sync::Wait;
use std::thread::Threads;

// Whether a command whose input fails after these bytes writes this text, and reports that.
fn reports_read_fault(
    rt: &(impl AllocGlobal + Wait + Threads + Sync),
    command: Command,
    left: &[u8],
    text: &[u8],
) -> bool {
    let mut found = Vec::new(rt.alloc());
    let report = report_of(rt, command, Input::failing(left), &mut found);
    let want = Report {
        end: End::ReadFault,
        written: text.len() as u64,
    };
    found.as_slice() == text && report == want
}

#[test]
fn a_read_fault_follows_the_answers(rt: HostRuntime) {
    assert!(rt;
        reports_read_fault(
            &rt,
            Command::Replay,
            b"0,i,5,50\n0",
            b"0 i 5 0.0\nread fault\n"
        )
    );
    assert!(rt; reports_read_fault(&rt, Command::Replay, b"", b"read fault\n"));
    assert!(rt; reports_read_fault(&rt, Command::Live, b"", b"read fault\n"));
    assert!(rt; reports_read_fault(&rt, Command::Knapsack, b"", b"read fault\n"));
}

// Whether an output that fails after so many bytes has the first bytes of the text, and the report counts them.
fn leaves_first(
    rt: &(impl AllocGlobal + Wait + Threads + Sync),
    command: Command,
    room: usize,
) -> bool {
    let mut output = Output::refusing(rt.alloc(), room, true);
    let report = report_of(rt, command, command.input(), &mut output);
    let want = Report {
        end: End::WriteFault,
        written: room as u64,
    };
    report == want && output.is_filled_by(command.text())
}

// The same for each number of bytes below the length of the text.
fn leaves_any_first(rt: &(impl AllocGlobal + Wait + Threads + Sync), command: Command) -> bool {
    for room in 0..command.text().len() {
        if !leaves_first(rt, command, room) {
            return false;
        }
    }
    true
}

#[test]
fn a_write_fault_leaves_the_first_bytes(rt: HostRuntime) {
    assert!(rt; Command::Replay.text().len() == 134);
    assert!(rt; leaves_any_first(&rt, Command::Replay));
    assert!(rt; leaves_any_first(&rt, Command::Live));
    assert!(rt; leaves_any_first(&rt, Command::Knapsack));
}
