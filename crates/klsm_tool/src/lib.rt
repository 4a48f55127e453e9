//! What the program `klsm` does, over any reader and writer.
//!
//! The program's `main` gives `run_program` its input and output, and returns the `Status` that
//! comes back. A caller with words of its own takes `run_words`, and one that has a script takes `replay_over`:
//!
//! ```text
//! let script: &[u8] = b"0,i,5,50\n0,i,3,30\n0,d,,\n";
//! let mut text = Vec::new(rt.alloc());
//! let settings = Settings { threads: 1, k: 64, pick: Pick::First, seed: 1 };
//! let report = replay_over(&rt, script, &mut text, &settings);
//! // report.end is End::Done, and the text ends with "max skip 0 bound 64"
//! ```
//!
//! `live_over` runs a script's rows in threads, and `knapsack_over` solves an instance, both behind a gate. `replay_on`
//! has a board of the caller's. Each is a case of a call with more: `replay_with`, `live_with` and `knapsack_with` take
//! a refill and a balance (`ScriptSettings`) and a progress, the last two with `Listeners`: a
//! gate that each thread passes first, and a progress, which is told how far a long run has come. Whoever keeps
//! its script, to see afterwards how far it was read, takes `live_script`, or `replay_script` with a board and its
//! members in one hand, as `board_in_one_hand` gives them. No crate but that of the tests calls these two for
//! itself: `replay_with` and `live_with` are made of them, and their clauses say most.
//!
//! Rows are read and judged by `klsm_text`, which also makes the lines and sends them. `replay` reads
//! a row, `replay_state` lets the member of its thread answer and has `skip_counter` count the skip, and
//! the line goes out with others before a further row is waited for. Where threads run the rows,
//! `live` has a `worker` for each, which passes its gate first; `making` has the board of
//! either, `picking` what each thread's deletions go by, and `member_calls` the calls of a member, which
//! balances where it is time. `knapsack` reads an instance, has it solved with the things of the
//! greatest value for their weight first, and writes its answer by the rows. `program` runs what its
//! words ask for, as `klsm_words` reads them, and by `advising` a user at a terminal is told what was
//! expected where something is refused.
//!
//! - **The text is that of the definition.** What goes out is the first `written` bytes of the
//!   answer text of the rows that were read, and all of it unless the writer failed: `Replays`, clause
//!   `replays` of `replay_script`.
//! - **A read fault comes only where the reader has failed, and behind a refused row none is read**:
//!   clauses `fault` and `refused` of `replay_script`, and `lives` and `refused` of `live_script`, since
//!   a clause can name no reader that is gone.
//! - **All lines have gone out before a further row is waited for**, but for what is known of the rows
//!   ahead: a premise of the call of `klsm_text` that reads one.
//! - **The answers are those of the board's members**: the members' lists have these and no others.
//!   A row is refused for the first reason that holds: the same clause. The board of `replay_over`
//!   is its own, and finished: `ReplaysAlone`.
//! - **A printed skip is at most threads times k**, and so is the greatest, and both are 0 where there is
//!   one thread or k is 0: all calls are made in one thread, so the members' lists are at all times those
//!   of one schedule. And the shared part always has room for one item more: `Replays` too, by `shown`,
//!   `greatest` and `stopped`.
//! - **A replay waits for no lock, and returns**: one thread makes the calls of all members, so none is held.
//! - **The totals of rows that threads run are those of some schedule**, which answers each thread's
//!   rows in their order, and the shared part has room for all of them: `Lives`, the clause of `live_over`.
//! - **The selection that is written is a best one**, and a search as the words say has found it: `Solves`, the clause
//!   of `knapsack_over`.
//! - **Words are a run or are answered with one text**, and each end has its status: clauses `runs` and
//!   `replays` of `run_with`.
//! - **The process ends with that status.** Nothing outside this crate makes a `Status`, and
//!   `Status::report` says that the process ends with its number.
//! - **Calls obey the settings**: the refill of the board, each thread's one picker, and the balances that are
//!   due: clause `course` of `replay_script`, and `course` of `ReplaysAlone` and of `RunsAll`.
//! - **What no contract says**: that the process's words are those that the system gave, and what
//!   standard input and output carried.
#![tactic(auto)]

mod advising;
mod knapsack;
mod live;
mod making;
mod member_calls;
mod over;
mod picking;
mod process_words;
mod program;
mod replay;
mod replay_state;
mod settings;
mod skip_counter;
mod status;
mod worker;

pub use klsm_knapsack::Listeners;
pub use klsm_progress::{Counted, Progress, Silent, TerminalLine, Terminals};
pub use klsm_text::{End, Report, Script};
pub use klsm_words::{Pick, ScriptSettings, Search};
pub use knapsack::knapsack_with;
pub use live::{live_script, live_with};
pub use making::board_in_one_hand;
pub use over::{knapsack_over, live_over, replay_on, replay_over};
pub use program::{run_program, run_with, run_words};
pub use replay::{replay_script, replay_with};
pub use settings::Settings;
pub use status::Status;
