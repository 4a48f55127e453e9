//! A line on a terminal that tells of a long run.
ghost use Rattle.std.specs.Prelude.{◌≡◌, ◌↔◌, IsTrue};
ghost use Rattle.klsm_progress.specs.TerminalLine.{Tells, terminals_of};

use crate::grouped::Grouped;
use crate::hint::Hint;
use crate::progress::{Counted, Progress};
use std::io::Eprint;
use std::rt::Clock;
use std::sync::atomic::{AtomicBool, AtomicU64, Ordering};
use std::time::Instant;

/// A run is told of once it has lasted so long, in milliseconds.
const SILENCE: u64 = 1000;

/// And then again after so long.
const PAUSE: u64 = 200;

/// Clears a terminal's line from the cursor on.
const CLEAR: &str = "\x1b[K";

/// Which of a process's streams are terminals.
#[derive(Clone, Copy, Debug)]
pub struct Terminals {
    pub input: bool,
    pub output: bool,
    pub error: bool,
}

/// Keeps one line on standard error up to date, where that is a terminal and the run has lasted for
/// more than a second, and takes the line away at the end. Of rows that are answered one by one it
/// does not tell where standard output is a terminal too, since it would stand between the answers. A hint
/// has a line of its own there, and so has that rows are read from a terminal.
#[derive(Drop)]
pub struct TerminalLine<'a, P> {
    rt: &'a P,
    terminals: Terminals,
    /// When it was made; `None` where nothing is to be told.
    made: Option<Instant>,
    /// After how many milliseconds the line is written next.
    next: AtomicU64,
    count: AtomicU64,
    /// How far the count goes, and 0 where that is not known.
    total: AtomicU64,
    is_shown: AtomicBool,
}

impl<'a, P: Eprint + Clock> TerminalLine<'a, P> {
    /// A line that is not shown yet.
    pub fn new(rt: &'a P, terminals: Terminals) -> Self
        ensures terminals { terminals_of result ≡ terminals }
        ensures told { Tells result → IsTrue terminals.error }
    {
        let made = if terminals.error {
            Instant::now(rt).ok()
        } else {
            None
        };
        TerminalLine {
            rt,
            terminals,
            made,
            next: AtomicU64::new(SILENCE),
            count: AtomicU64::new(0),
            total: AtomicU64::new(0),
            is_shown: AtomicBool::new(false),
        }
    }

    // Whether the line would stand between answers.
    fn is_among_answers(&self, counted: Counted) -> bool
        ensures { IsTrue result ↔ ((counted ≡ Counted.RowsAnswered)
            × IsTrue (terminals_of self.now).output) }
    {
        counted == Counted::RowsAnswered && self.terminals.output
    }

    // Whether the line is to be written now, which is so for one of the threads that ask at once.
    fn is_due(&self) -> bool
        ensures { IsTrue result → Tells self.now }
    {
        let Some(made) = self.made else {
            return false;
        };
        let Ok(lasted) = made.elapsed(self.rt) else {
            return false;
        };
        let lasted = lasted
            .as_secs()
            .saturating_mul(1000)
            .saturating_add(u64::from(lasted.subsec_millis()));
        let next = self.next.load(Ordering::SeqCst);
        let later = lasted.saturating_add(PAUSE);
        lasted > next
            && self
                .next
                .compare_exchange(next, later, Ordering::SeqCst, Ordering::SeqCst)
                .is_ok()
    }

    // Nobody is told where this fails.
    fn write(&self, counted: Counted, count: u64)
        requires { Tells self.now }
    {
        self.is_shown.store(true, Ordering::SeqCst);
        let words = counted.words();
        let count = Grouped(count);
        let total = self.total.load(Ordering::SeqCst);
        let _ = if total > 0 {
            let total = Grouped(total);
            eprint!(self.rt; "\r{count} of {total} {words} {CLEAR}")
        } else {
            eprint!(self.rt; "\r{count} {words} {CLEAR}")
        };
    }
}

impl<P: Eprint + Clock + Sync> Progress for TerminalLine<'_, P> {
    fn begins(&self, total: Option<u64>) {
        self.total.store(total.unwrap_or(0), Ordering::SeqCst);
        self.count.store(0, Ordering::SeqCst);
    }

    fn went_on(&self, counted: Counted, more: u64) {
        let before = self.count.fetch_add(more, Ordering::SeqCst);
        if !self.is_among_answers(counted) && self.is_due() {
            self.write(counted, before.saturating_add(more));
        }
    }

    fn ended(&self) {
        if self.is_shown.load(Ordering::SeqCst) {
            let _ = eprint!(self.rt; "\r{CLEAR}");
        }
    }

    fn reads(&self) {
        if self.terminals.error && self.terminals.input {
            let _ = eprint!(self.rt; "reads rows from the terminal; Ctrl-D ends\n");
        }
    }

    fn advise(&self, hint: &Hint) {
        if self.terminals.error {
            let _ = eprint!(self.rt; "{hint}\n");
        }
    }
}
