//! What the words of the program `klsm` ask for.
//!
//! The kit's `clap` parses the words, after a look whether they are text:
//!
//! ```text
//! match parse(alloc, words)? {
//!     Action::Replay(settings) => ..,     // replay --threads 2 --k 1 --pick last
//!     Action::Live(settings) => ..,
//!     Action::Knapsack(search) => ..,     // knapsack --threads 4 --idle 8
//! }
//! ```
//!
//! `command_line` has the commands and `options` what each may say; `help` is the text behind the
//! options, and `version` that of `--version`. `klsm_tool` does what is asked.
//!
//! - **Words are a command or are answered with a text or a fault**: the clauses of `parse`, by the
//!   definitions of `clap` of what it finds in words.
//! - **ScriptSettings are in their range**: clause `range`.
#![tactic(auto)]

mod command_line;
mod help;
mod options;
mod settings;
mod version;

pub use command_line::{Action, Fault, USAGE, parse};
pub use klsm_parts::Pick;
pub use settings::{ScriptSettings, Search};
