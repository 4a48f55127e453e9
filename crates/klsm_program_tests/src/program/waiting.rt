//! That no answer is kept back while the program waits for a row, and that many go out at once
//! where many rows are there.

use super::REPLAY;
use super::process::Process;
use super::repeated::repeated;
use klsm_tool::{Silent, run_program};
use std::alloc::Global;
use std::cell::Cell;
use std::io;
use std::io::{Read, Write};
use std::sync::Wait;
use std::thread::Threads;

/// What was seen of a run.
#[derive(Drop)]
struct Seen {
    /// How many lines have gone out.
    lines: Cell<usize>,
    /// In how many writes.
    writes: Cell<usize>,
    /// How many pieces of the script were asked for while other lines had gone out than should
    /// have.
    faults: Cell<usize>,
}

impl Seen {
    fn nothing() -> Self {
        Seen {
            lines: Cell::new(0),
            writes: Cell::new(0),
            faults: Cell::new(0),
        }
    }
}

fn add(count: &Cell<usize>, more: usize) {
    count.set(count.get().saturating_add(more));
}

/// Takes all, and counts lines and writes.
#[derive(Drop)]
struct Lines<'a> {
    seen: &'a Seen,
}

impl Write for Lines<'_> {
    fn write(&mut self, buf: &[u8]) -> io::Result<usize> {
        let lines = buf.iter().filter(|byte| **byte == b'\n').count();
        add(&self.seen.lines, lines);
        add(&self.seen.writes, 1);
        Ok(buf.len())
    }

    fn flush(&mut self) -> io::Result<()> {
        Ok(())
    }
}

/// A piece of a script, and how many lines have to be out when more is asked for.
type Piece<'a> = (&'a [u8], usize);

/// Gives a script piece by piece.
#[derive(Drop)]
struct Pieces<'a> {
    pieces: &'a [Piece<'a>],
    /// Which of them is given now.
    at: usize,
    /// How many bytes of it were given.
    given: usize,
    seen: &'a Seen,
}

impl Pieces<'_> {
    /// Goes on to the next piece where all of this one was given.
    fn go_on(&mut self) {
        let Some((piece, lines)) = self.pieces.get(self.at) else {
            return;
        };
        if self.given < piece.len() {
            return;
        }
        if self.seen.lines.get() != *lines {
            add(&self.seen.faults, 1);
        }
        self.at = self.at.saturating_add(1);
        self.given = 0;
    }
}

impl Read for Pieces<'_> {
    fn read(&mut self, buf: &mut [u8]) -> io::Result<usize> {
        self.go_on();
        let Some((piece, _)) = self.pieces.get(self.at) else {
            return Ok(0);
        };
        if self.given >= piece.len() {
            return Ok(0);
        }
        let left = &piece[self.given..];
        let count = left.len().min(buf.len());
        buf[..count].copy_from_slice(&left[..count]);
        self.given += count;
        Ok(count)
    }
}

/// What is seen of a run over this script, and its status.
fn run_over(rt: &(impl Wait + Threads + Sync), alloc: Global, pieces: &[Piece]) -> (Seen, u8) {
    let seen = Seen::nothing();
    let reader = Pieces {
        pieces,
        at: 0,
        given: 0,
        seen: &seen,
    };
    let mut writer = Lines { seen: &seen };
    let status = run_program(
        &(Process { rt, words: REPLAY }, alloc),
        reader,
        &mut writer,
        &Silent,
    );
    (seen, status.code())
}

/// Scripts, each with the number of its lines and the status.
const SCRIPTS: &[(&[Piece], usize, u8)] = &[
    // Row by row.
    (
        &[(b"0,i,5,50\n", 1), (b"0,i,3,30\n", 2), (b"0,d,,\n", 3)],
        4,
        0,
    ),
    // Rows that end by `\r\n`, also over the end of a piece.
    (
        &[
            (b"0,i,5,50\r\n", 1),
            (b"0,i,3,30\r", 2),
            (b"\n0,i,4,40\r", 3),
            (b"\n", 3),
            (b"0,d,,\r\n", 4),
        ],
        5,
        0,
    ),
    // A line end that comes behind its row, and blank lines.
    (
        &[
            (b"0,i,5,50", 0),
            (b"\n", 1),
            (b"\n\r\n", 1),
            (b"0,d,,\n\n", 2),
        ],
        3,
        0,
    ),
    // Rows that are cut, and many rows at once.
    (
        &[
            (b"0,i,5,50\n0,i,3,30\n0,", 2),
            (b"i,4,4", 2),
            (b"0\n0,d,,\n0,d,,\n0", 5),
            (b",d,,", 5),
        ],
        7,
        0,
    ),
    // Quoted fields, and a quoted line end.
    (
        &[
            (b"\"0\",i,5,50\n0,i,3,30\n\"0", 2),
            (b"\",i,4,40\n0,d,\"\n", 3),
            (b"\",\n", 3),
        ],
        4,
        1,
    ),
    // Rows with quotes and without in turn, cut behind quotes and within them.
    (
        &[
            (b"\"0\",\"i\",\"5\",\"50\"", 0),
            (b"\n0,i,3,30\n0,d,\"", 2),
            (b"\",\"\"", 2),
            (b"\r\n0,d,,\n", 4),
        ],
        5,
        0,
    ),
    // A piece that is all in quotes, and one that ends them and begins others, in which a line end is.
    (
        &[
            (b"0,i,5,50\n0,i,6,\"6", 1),
            (b"0", 1),
            (b"\"\n0,i,7,\"7\n", 2),
            (b"\",,\n", 2),
        ],
        3,
        1,
    ),
    // A refused row, behind which nothing more is asked for.
    (&[(b"0,i,5,50\n0,q,,\n", 2), (b"0,d,,\n", 2)], 2, 1),
];

/// Whether no answer is kept back in a run over this script, which has so many lines and this
/// status.
fn keeps_nothing_back(
    rt: &(impl Wait + Threads + Sync),
    alloc: Global,
    pieces: &[Piece],
    lines: usize,
    wanted: u8,
) -> bool {
    let (seen, status) = run_over(rt, alloc, pieces);
    seen.faults.get() == 0 && seen.lines.get() == lines && status == wanted
}

#[test]
fn no_answer_is_kept_back_while_a_row_is_waited_for(rt: HostRuntime) {
    for (pieces, lines, wanted) in SCRIPTS {
        assert!(rt; keeps_nothing_back(&rt, rt.alloc(), pieces, *lines, *wanted));
    }
}

/// Whether the answers to a first row, and then to a thousand rows that are all alike, go out in few
/// writes.
fn go_out_at_once(
    rt: &(impl Wait + Threads + Sync),
    alloc: Global,
    first: &[u8],
    row: &[u8],
) -> Option<bool> {
    let rows = repeated(alloc, row, 1000)?;
    let (seen, status) = run_over(rt, alloc, &[(first, 1), (rows.as_slice(), 1001)]);
    Some(status == 0 && seen.lines.get() == 1002 && seen.writes.get() < 10)
}

#[test]
fn many_answers_go_out_at_once(rt: HostRuntime) {
    assert!(rt; go_out_at_once(&rt, rt.alloc(), b"0,d,,\n", b"0,d,,\n") == Some(true));
}

#[test]
fn many_answers_go_out_at_once_behind_quotes(rt: HostRuntime) {
    let first = b"0,\"d\",,\n";
    assert!(rt; go_out_at_once(&rt, rt.alloc(), first, b"0,d,,\n") == Some(true));
    let quoted = b"\"0\",\"d\",\"\",\"\"\n";
    assert!(rt; go_out_at_once(&rt, rt.alloc(), quoted, quoted) == Some(true));
}

/// Whether each of a thousand rows is answered before the next one is asked for.
fn answers_each(rt: &(impl Wait + Threads + Sync), alloc: Global) -> Option<bool> {
    let mut pieces: Vec<Piece> = Vec::new(alloc);
    for number in 0..1000usize {
        pieces.push((b"0,d,,\n", number.saturating_add(1))).ok()?;
    }
    let (seen, status) = run_over(rt, alloc, pieces.as_slice());
    Some(status == 0 && seen.faults.get() == 0 && seen.lines.get() == 1001)
}

#[test]
fn a_thousand_rows_one_by_one(rt: HostRuntime) {
    assert!(rt; answers_each(&rt, rt.alloc()) == Some(true));
}

/// Whether the answers to a million rows have gone out before a row more is asked for.
fn answers_a_million(rt: &(impl Wait + Threads + Sync), alloc: Global) -> Option<bool> {
    let rows = repeated(alloc, b"0,d,,\n", 1_000_000)?;
    let (seen, status) = run_over(rt, alloc, &[(rows.as_slice(), 1_000_000)]);
    Some(status == 0 && seen.faults.get() == 0)
}

#[test]
fn a_million_answers_before_the_end(rt: HostRuntime) {
    assert!(rt; answers_a_million(&rt, rt.alloc()) == Some(true));
}
