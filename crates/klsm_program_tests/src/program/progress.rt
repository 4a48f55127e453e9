//! Progress reports of long runs: each command says how far it has come, and the line of it is written
//! where standard error is a terminal and the run has lasted for more than a second, and goes away at
//! the end.

use super::process::Process;
use super::repeated::repeated;
use klsm_test_support::{Input, Output};
use klsm_tool::{Counted, Progress, TerminalLine, Terminals, run_program};
use std::alloc::Global;
use std::fmt::Display;
use std::io;
use std::io::{Eprint, Error, ErrorKind, Write};
use std::rt::Clock;
use std::sync::atomic::{AtomicU64, Ordering};
use std::sync::{Mutex, Wait};
use std::test::Fail;
use std::thread::Threads;
use std::time::Duration;

/// A clock that goes on with each look at it and when it is set, and a standard error that keeps what is
/// written.
#[derive(Drop)]
struct Desk {
    alloc: Global,
    millis: AtomicU64,
    /// How many milliseconds a look takes.
    look: u64,
    text: Mutex<Vec<u8>>,
}

impl Desk {
    fn new(alloc: Global, look: u64) -> Self {
        Desk {
            alloc,
            millis: AtomicU64::new(0),
            look,
            text: Mutex::new(Vec::new(alloc)),
        }
    }

    fn reads(&self) -> Duration {
        Duration::from_millis(self.millis.fetch_add(self.look, Ordering::SeqCst))
    }

    /// Keeps a text behind what was written before.
    fn keep(&self, text: &[u8]) -> io::Result<()> {
        let Some(mut all) = self.text.try_lock() else {
            return Err(Error::from(ErrorKind::Other));
        };
        all.extend_from_slice(text)?;
        Ok(())
    }
}

impl Clock for Desk {
    fn monotonic(&self) -> io::Result<Duration> {
        Ok(self.reads())
    }

    fn since_1970(&self) -> io::Result<Duration> {
        Ok(self.reads())
    }
}

impl Eprint for Desk {
    fn eprint<D: Display + Drop>(&self, value: D) -> io::Result<()> {
        let text = format!(in self.alloc; "{value}")?;
        self.keep(text.as_bytes())
    }

    fn eprintln<D: Display + Drop>(&self, value: D) -> io::Result<()> {
        self.eprint(value)?;
        self.eprint("\n")
    }
}

/// What happens in a run.
#[derive(Clone, Copy)]
enum Event {
    /// It has lasted for so many milliseconds.
    Lasts(u64),
    /// A count begins, up to a total where it is known.
    Begins(Option<u64>),
    /// So many more are counted.
    WentOn(Counted, u64),
    /// It has ended.
    Ended,
}

/// Standard error is a terminal, and standard output is none.
const ERROR: Terminals = Terminals {
    input: false,
    output: false,
    error: true,
};

/// Both are terminals.
const BOTH: Terminals = Terminals {
    input: false,
    output: true,
    error: true,
};

/// Standard error is none.
const OUTPUT: Terminals = Terminals {
    input: false,
    output: true,
    error: false,
};

/// Which outputs are terminals, what happens, and all that is written to standard error.
type Told = (Terminals, &'static [Event], &'static str);

const TOLD: &[Told] = &[
    // A terminal, and more than a second.
    (
        ERROR,
        &[
            Event::WentOn(Counted::RowsRead, 5),
            Event::Lasts(1001),
            Event::WentOn(Counted::RowsRead, 7),
        ],
        "\r12 rows read \x1b[K",
    ),
    // Just a second, and no line to take away.
    (
        ERROR,
        &[
            Event::Lasts(1000),
            Event::WentOn(Counted::RowsRead, 7),
            Event::Ended,
        ],
        "",
    ),
    // No terminal.
    (
        OUTPUT,
        &[
            Event::Lasts(5000),
            Event::WentOn(Counted::RowsRun, 7),
            Event::Ended,
        ],
        "",
    ),
    // The next line follows after a pause. It counts anew once the rows are run, up to their number,
    // and what a longer line wrote behind it is cleared.
    (
        BOTH,
        &[
            Event::Begins(None),
            Event::Lasts(1001),
            Event::WentOn(Counted::RowsRead, 999_999),
            Event::Lasts(1201),
            Event::WentOn(Counted::RowsRead, 1),
            Event::Begins(Some(1_000_000)),
            Event::Lasts(1202),
            Event::WentOn(Counted::RowsRun, 4096),
            Event::Begins(None),
            Event::Lasts(1403),
            Event::WentOn(Counted::RowsRun, 3),
            Event::Ended,
        ],
        "\r999,999 rows read \x1b[K\r4,096 of 1,000,000 rows run \x1b[K\r3 rows run \x1b[K\r\x1b[K",
    ),
    // Nodes of a search.
    (
        BOTH,
        &[
            Event::Begins(None),
            Event::Lasts(2000),
            Event::WentOn(Counted::NodesExamined, u64::MAX),
        ],
        "\r18,446,744,073,709,551,615 nodes examined \x1b[K",
    ),
    // Rows that are answered one by one, where nobody reads the answers in the same place.
    (
        ERROR,
        &[
            Event::Begins(None),
            Event::Lasts(2000),
            Event::WentOn(Counted::RowsAnswered, 40_960),
            Event::Ended,
        ],
        "\r40,960 rows answered \x1b[K\r\x1b[K",
    ),
    // And where the line would stand between the answers.
    (
        BOTH,
        &[
            Event::Begins(None),
            Event::Lasts(2000),
            Event::WentOn(Counted::RowsAnswered, 40_960),
            Event::Ended,
        ],
        "",
    ),
];

/// Lets a line hear of what happens.
fn hear(desk: &Desk, line: &impl Progress, events: &[Event]) {
    for event in events {
        match event {
            Event::Lasts(millis) => desk.millis.store(*millis, Ordering::SeqCst),
            Event::Begins(total) => line.begins(*total),
            Event::WentOn(counted, more) => line.went_on(*counted, *more),
            Event::Ended => line.ended(),
        }
    }
}

/// All that is written while this happens.
fn written(alloc: Global, terminals: Terminals, events: &[Event]) -> Vec<u8> {
    let desk = Desk::new(alloc, 0);
    hear(&desk, &TerminalLine::new(&desk, terminals), events);
    desk.text.into_inner()
}

#[test]
fn a_line_on_a_terminal_after_a_second(rt: HostRuntime) {
    for (terminals, events, text) in TOLD {
        let all = written(rt.alloc(), *terminals, events);
        assert!(rt; all.as_slice() == text.as_bytes());
    }
}

/// Sums what it hears of each count, and how often a count begins and the run ends.
#[derive(Drop)]
struct Heard {
    begun: AtomicU64,
    total: AtomicU64,
    counts: [AtomicU64; 4],
    ended: AtomicU64,
}

impl Heard {
    fn nothing() -> Self {
        Heard {
            begun: AtomicU64::new(0),
            total: AtomicU64::new(0),
            counts: [
                AtomicU64::new(0),
                AtomicU64::new(0),
                AtomicU64::new(0),
                AtomicU64::new(0),
            ],
            ended: AtomicU64::new(0),
        }
    }

    /// How many counts began, the total of the last one, the rows read, run and answered, the nodes
    /// examined, and how often the run ended.
    fn all(&self) -> [u64; 7] {
        let [read, run, answered, examined] = &self.counts;
        [
            self.begun.load(Ordering::SeqCst),
            self.total.load(Ordering::SeqCst),
            read.load(Ordering::SeqCst),
            run.load(Ordering::SeqCst),
            answered.load(Ordering::SeqCst),
            examined.load(Ordering::SeqCst),
            self.ended.load(Ordering::SeqCst),
        ]
    }
}

impl Progress for Heard {
    fn begins(&self, total: Option<u64>) {
        self.begun.fetch_add(1, Ordering::SeqCst);
        self.total.store(total.unwrap_or(0), Ordering::SeqCst);
    }

    fn went_on(&self, counted: Counted, more: u64) {
        let [read, run, answered, examined] = &self.counts;
        let count = match counted {
            Counted::RowsRead => read,
            Counted::RowsRun => run,
            Counted::RowsAnswered => answered,
            Counted::NodesExamined => examined,
        };
        count.fetch_add(more, Ordering::SeqCst);
    }

    fn ended(&self) {
        self.ended.fetch_add(1, Ordering::SeqCst);
    }
}

/// A run over an input, of which all is heard.
fn run_heard(
    rt: &(impl Wait + Threads + Sync),
    alloc: Global,
    words: &[&[u8]],
    input: &[u8],
    heard: &Heard,
) {
    run_program(
        &(Process { rt, words }, alloc),
        Input::whole(input),
        &mut Output::ample(alloc),
        heard,
    );
}

/// What is heard of a run of this command over an input.
fn heard_of(
    rt: &(impl Wait + Threads + Sync),
    alloc: Global,
    command: &[u8],
    input: &[u8],
) -> [u64; 7] {
    let heard = Heard::nothing();
    run_heard(rt, alloc, &[b"klsm", command], input, &heard);
    heard.all()
}

/// Things of the value of their weight, of which no selection fills the knapsack, so that few nodes can
/// be closed.
const THINGS: &[u8] = b"\
capacity,15
2,2\n2,2\n2,2\n2,2\n2,2\n2,2\n2,2\n2,2\n2,2\n2,2\n2,2\n2,2\n2,2\n2,2\n2,2\n2,2
";

#[test]
fn each_command_tells_how_far_it_has_come(rt: HostRuntime) -> Result<(), Fail> {
    let rows = repeated(rt.alloc(), b"0,d,,\n", 10_000).ok_or("no memory")?;
    let replay = heard_of(&rt, rt.alloc(), b"replay", rows.as_slice());
    assert_eq!(rt; replay, [1, 0, 0, 0, 8192, 0, 1]);
    let live = heard_of(&rt, rt.alloc(), b"live", rows.as_slice());
    assert_eq!(rt; live, [2, 10_000, 8192, 8192, 0, 0, 1]);
    let [begun, total, read, run, answered, examined, ended] = heard_of(
        &rt,
        rt.alloc(),
        b"knapsack",
        THINGS,
    );
    assert_eq!(rt;
        [begun, total, read, run, answered, ended],
        [1, 0, 0, 0, 0, 1]
    );
    assert!(rt; examined >= 4096 && examined % 4096 == 0);
    Ok(())
}

/// A standard output on the same terminal as standard error.
#[derive(Drop)]
struct SameTerminal<'a> {
    desk: &'a Desk,
}

impl Write for SameTerminal<'_> {
    fn write(&mut self, buf: &[u8]) -> io::Result<usize> {
        self.desk.keep(buf)?;
        Ok(buf.len())
    }

    fn flush(&mut self) -> io::Result<()> {
        Ok(())
    }
}

/// All that a command writes over an input, where each look at the clock takes more than a second.
fn shown(
    rt: &(impl Wait + Threads + Sync),
    alloc: Global,
    command: &[u8],
    input: &[u8],
) -> Vec<u8> {
    let desk = Desk::new(alloc, 1500);
    let words: &[&[u8]] = &[b"klsm", command];
    run_program(
        &(Process { rt, words }, alloc),
        Input::whole(input),
        &mut SameTerminal { desk: &desk },
        &TerminalLine::new(&desk, ERROR),
    );
    desk.text.into_inner()
}

/// What takes the line away.
const GONE: &[u8] = b"\r\x1b[K";

/// What stands before a piece of text and behind it, where it stands first.
fn parted<'a>(text: &'a [u8], piece: &[u8]) -> Option<(&'a [u8], &'a [u8])> {
    for at in 0..text.len() {
        let (before, rest) = text.split_at(at);
        if let Some(behind) = rest.strip_prefix(piece) {
            return Some((before, behind));
        }
    }
    None
}

/// Whether a line was shown and then taken away, once, and no byte of a last line that begins so was
/// written before.
fn goes_before(text: &[u8], last: &[u8]) -> bool {
    let Some((before, behind)) = parted(text, GONE) else {
        return false;
    };
    before.contains(&b'\r')
        && !behind.contains(&b'\r')
        && parted(before, last).is_none()
        && parted(behind, last).is_some()
}

#[test]
fn the_line_goes_before_the_last_one(rt: HostRuntime) -> Result<(), Fail> {
    let alloc = rt.alloc();
    let rows = repeated(alloc, b"0,d,,\n", 5000).ok_or("no memory")?;
    let mut refused = repeated(alloc, b"0,d,,\n", 5000).ok_or("no memory")?;
    refused.extend_from_slice(b"0,q,,\n")?;
    let replay = shown(&rt, alloc, b"replay", rows.as_slice());
    assert!(rt; goes_before(replay.as_slice(), b"max skip 0 bound 64\n"));
    let live = shown(&rt, alloc, b"live", rows.as_slice());
    assert!(rt; goes_before(live.as_slice(), b"inserted 0 deleted 0 left 0\n"));
    let knapsack = shown(&rt, alloc, b"knapsack", THINGS);
    assert!(rt; goes_before(knapsack.as_slice(), b"value 14 weight 14 picks "));
    let last = b"refused row 5001: operation\n";
    let replay = shown(&rt, alloc, b"replay", refused.as_slice());
    assert!(rt; goes_before(replay.as_slice(), last));
    let live = shown(&rt, alloc, b"live", refused.as_slice());
    assert!(rt; goes_before(live.as_slice(), last));
    Ok(())
}
