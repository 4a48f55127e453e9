//! The bytes of a script: quotes, leading zeros, line ends, signs, spaces, and bytes that are no text.

use super::calls::ONE_THREAD;
use klsm_tool::{End, Report, replay_over};

// A script, what is written, and how the run ends.
const ROWS: &[(&[u8], &[u8], End)] = &[
    (
        b"\"0\",i,5,0",
        b"0 i 5 0.0\nmax skip 0 bound 64\n",
        End::Done,
    ),
    (
        b"0,i,007,0\r\n",
        b"0 i 7 0.0\nmax skip 0 bound 64\n",
        End::Done,
    ),
    (b"0,i,+5,0", b"refused row 1: key\n", End::Refused),
    (b"0,i,5,\xff", b"refused row 1: load\n", End::Refused),
    (b"0,i,5,0,", b"refused row 1: fields\n", End::Refused),
    (b" 0,i,5,0", b"refused row 1: thread\n", End::Refused),
];

// Whether a replay of the script writes this text and ends so.
fn is_replayed(rt: &impl AllocGlobal, script: &[u8], text: &[u8], end: End) -> bool {
    let mut found = Vec::new(rt.alloc());
    let report = replay_over(rt, script, &mut found, &ONE_THREAD);
    let written = text.len() as u64;
    found.as_slice() == text && report == Report { end, written }
}

#[test]
fn numbers_have_digits_alone(rt: HostRuntime) {
    for (script, text, end) in ROWS {
        assert!(rt; is_replayed(&rt, script, text, *end));
    }
}
