//! What the program `klsm` reads as a script, and the lines that it writes.
//!
//! A script is read row by row. A row asks a thread for something or is refused, and why no further
//! row is answered makes the last line. Lines are kept, and go out many at a time:
//!
//! ```text
//! let mut output = Output::new(alloc)?;
//! let mut script = Script::new(alloc, reader);
//! script.advance(&output)?;                                     // the next row, or why there is none
//! let request = request_of(&script.row, 2).map_err(Stop::Refused)?;
//! let line = Line { thread: request.thread, answer: Answer::Nothing };
//! output.put(writer, Printed { line, skip: 0 }.text().as_bytes())?;
//! let report = output.close(writer, Closing::at(Stop::AtEnd, 2));
//! ```
//!
//! `script` reads a row into a record that is used again, and `judge` says what it asks for, a
//! `Request`, or what is wrong with it: `row_ends` knows how far the whole rows go that were read. A
//! script that threads are to run is read whole, and `thread_rows` keeps its rows for them. An `answer`,
//! the `totals`, a `selection` and a `Stop` each have their text, a `LineText`, and `output` sends it and
//! says in a `Report` how the run ended. `klsm_tool` gives the answers.
//!
//! - **A row is judged by its four fields**, and refused for the first thing that is wrong with it:
//!   the contract of `request_of`.
//! - **No row is passed over, and none is made up**: the contracts of `Script::advance` and of
//!   `keep_rows`, which keeps each row for its thread alone.
//! - **Behind a row that is refused `keep_rows` reads none**: the same contract.
//! - **A row is read only once the answers before it have gone out**, unless a whole row is known to have
//!   been read ahead: premise `sent` of `Script::advance`, and the contract of `Script::may_wait`. What is
//!   known of the rows ahead no contract says.
//! - **The lines are those of the definitions**: clauses `text`.
//! - **What is put goes out in its order, and is counted**, up to where the writer fails: the contracts
//!   of `Output::put`, `flush` and `close`, of `write_text` and of `write_last`.
#![tactic(auto)]

mod answer;
mod hints;
mod judge;
mod line_text;
mod output;
mod report;
mod request;
mod row_ends;
mod script;
mod selection;
mod stop;
mod thread_rows;
mod totals;

pub use answer::{Answer, Line, Printed};
pub use hints::row_hint;
pub use judge::request_of;
pub use line_text::LineText;
pub use output::{Output, write_last, write_text};
pub use report::{End, Report};
pub use request::{Operation, Refusal, Request};
pub use script::Script;
pub use selection::{refusal_text, selection_text};
pub use stop::{Closing, NO_MEMORY, Stop};
pub use thread_rows::{ROW_LIMIT, ThreadRow, keep_rows, no_rows};
pub use totals::Totals;
