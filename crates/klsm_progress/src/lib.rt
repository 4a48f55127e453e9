//! Progress reports of a long run, and their receivers.
//!
//! A run tells a value that it is handed how far it has come, from any of its threads. Each thread counts
//! for itself and says so many at once, so that it costs little:
//!
//! ```text
//! progress.begins(Some(rows.len() as u64));                     // so many rows are to be run
//! let mut pace = Pace::new(Counted::RowsRun);                   // in each thread
//! for row in rows {
//!     run(row);
//!     pace.count(progress);
//! }
//! progress.ended();                                             // once all threads are done
//! ```
//!
//! `Silent` tells nobody, and a `TerminalLine` keeps one line on standard error up to date, as `4,096 of
//! 1,000,000 rows run`. What a progress hears changes no answer.
//!
//! - **A thread counts to 4,096**, from 0 on and then from 0 again, and always the same: the clauses of
//!   `Pace::new` and `Pace::count`.
//! - **A line tells only where standard error is a terminal**: clause `told` of `TerminalLine::new`. One that
//!   does not tell is not written: the contracts of the private calls there.
//! - **The words behind a number** are those of what is counted: the contract of `Counted::words`.
//!
//! A progress also hears that rows are read from now on, and of a run that ends with a refusal a `Hint`, which
//! says to a user what was expected. It goes to standard error where that is a terminal, and else nowhere.
//!
//! No contract speaks of what a progress does with what it hears. So it is tested only that a thread tells
//! at each 4,096th, and what the line then says.
#![tactic(auto)]

mod grouped;
mod hint;
mod pace;
mod progress;
mod terminal_line;

pub use grouped::Grouped;
pub use hint::Hint;
pub use pace::Pace;
pub use progress::{Counted, Progress, Silent};
pub use terminal_line::{TerminalLine, Terminals};
