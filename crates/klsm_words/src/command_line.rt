//! The command line: what its words ask for.
ghost use Rattle.std.specs.Prelude.{◌≡◌, ◌≤◌, ◌↔◌, Some, IfErr, IfOk, IfSome, OnOk, IsUtf8, false, true, map};
ghost use Rattle.std.specs.List.{All};
ghost use Rattle.clap.specs.Words.{app_of, found_of, kind_of, new_app, rows_of, subcommand_rows_of};
ghost use Rattle.clap.specs.declared.builder.command.Command.TheViews.{out-Command as fields_of};
ghost use Rattle.klsm_words.specs.CommandLine.{Explains, IsCommand, IsFaultIn, IsActionInRange, action_in as action_in_words};
ghost use Rattle.klsm_words.specs.CommandLine.{IsFaultOf, RefillsAtMostK};
ghost use Rattle.klsm_words.specs.CommandLine.{action_of, action_under, bare_app, klsm_command, knapsack_app};
ghost use Rattle.klsm_words.specs.CommandLine.{command_over_rows, command_over_scripts, live_app, replay_app, script_action};
ghost use Rattle.klsm_words.specs.Options.{AreInRange};

use crate::help::{KNAPSACK_HELP, LIVE_HELP, REPLAY_HELP};
use crate::options::{search_of, settings_of, with_options, with_search_options};
use crate::settings::{ScriptSettings, Search};
use crate::version::VERSION;
use clap::error::ErrorKind;
use clap::{ArgMatches, Command, Error};
use std::alloc::{AllocError, Global};
use std::str;

/// The status with which the program answers a fault of the command line.
pub const USAGE: u8 = 2;

/// What the words ask for.
#[derive(Clone, Copy, Debug, PartialEq, Eq)]
pub enum Action {
    /// A script is answered row by row.
    Replay(ScriptSettings),
    /// The rows of a script are run by threads.
    Live(ScriptSettings),
    /// An instance of the knapsack problem is solved.
    Knapsack(Search),
}

/// Why the words ask for no run.
#[derive(Debug, Drop)]
pub enum Fault {
    /// This text of the parser answers them, and the program ends with this status.
    Said {
        /// The text.
        text: String,
        /// 0 for help and for the version, and 2 for a fault.
        status: u8,
    },
    /// The word of `--pick` is none that it takes.
    UnknownPick,
    /// The number of `--refill` is above that of `--k`.
    BadRefill,
    /// One of them is not UTF-8.
    NotText,
    /// A growth was refused.
    NoMemory,
}

/// What the words ask for, which are those after the program's own name, or why they ask for no run.
pub fn parse(alloc: Global, words: &[Vec<u8>]) -> Result<Action, Fault>
    ensures fault { IfErr result (IsFaultIn (map (λ word. word.items) words.now)) }
    ensures asked { OnOk result (IsCommand (map (λ word. word.items) words.now)) }
    ensures action { IfOk result (λ action.
        action_in_words (map (λ word. word.items) words.now) ≡ Some action) }
    ensures range { IfOk result IsActionInRange }
{
    let texts = texts_of(alloc, words)?;
    let Ok(command) = command(alloc) else {
        return Err(Fault::NoMemory);
    };
    match command.try_get_matches_from(texts.as_slice()) {
        Ok(matches) => run_of(action_in(&matches)),
        Err(error) => Err(fault_of(alloc, &error)),
    }
}

// What was asked for, unless it is refused.
fn run_of(asked: Option<Action>) -> Result<Action, Fault>
    requires range { IfSome asked (λ action. RefillsAtMostK action → IsActionInRange action) }
    ensures fault { IfErr result (IsFaultOf asked) }
    ensures action { IfOk result (λ action. asked ≡ Some action) }
    ensures range { IfOk result IsActionInRange }
{
    match asked {
        None => Err(Fault::UnknownPick),
        Some(action) if refills_at_most_k(action) => Ok(action),
        Some(_) => Err(Fault::BadRefill),
    }
}

fn refills_at_most_k(action: Action) -> bool
    ensures { result ≡ true ↔ RefillsAtMostK action }
{
    match action {
        Action::Replay(settings) | Action::Live(settings) => settings.refill <= settings.k,
        Action::Knapsack(_) => true,
    }
}

// What the command that the words name does, with its options.
fn action_in(matches: &ArgMatches) -> Option<Action>
    ensures action { result ≡ action_under (subcommand_rows_of matches.now) }
    ensures range { IfSome result (λ action. RefillsAtMostK action → IsActionInRange action) }
{
    let (name, options) = matches.subcommand()?;
    action_named(name, options)
}

fn action_named(name: &str, options: &ArgMatches) -> Option<Action>
    ensures action { result ≡ action_of name.now (rows_of (found_of options.now)) }
    ensures range { IfSome result (λ action. RefillsAtMostK action → IsActionInRange action) }
{
    match name {
        "knapsack" => Some(Action::Knapsack(search_of(options))),
        _ => Some(over_scripts(name, settings_of(options)?)),
    }
}

fn over_scripts(name: &str, settings: ScriptSettings) -> Action
    requires { settings.refill ≤ settings.k → AreInRange settings }
    ensures action { result ≡ script_action name.now settings }
    ensures range { RefillsAtMostK result → IsActionInRange result }
{
    match name {
        "live" => Action::Live(settings),
        _ => Action::Replay(settings),
    }
}

fn texts_of(alloc: Global, words: &[Vec<u8>]) -> Result<Vec<&str>, Fault>
    ensures texts { IfOk result (λ texts. map (λ text. text.now) texts.items
        ≡ map (λ word. word.items) words.now) }
    ensures readable { OnOk result (All IsUtf8 (map (λ word. word.items) words.now)) }
    ensures fault { IfErr result (IsFaultIn (map (λ word. word.items) words.now)) }
{
    let mut texts = Vec::new(alloc);
    for word in words {
        let Ok(text) = str::from_utf8(word.as_slice()) else {
            return Err(Fault::NotText);
        };
        if texts.push(text).is_err() {
            return Err(Fault::NoMemory);
        }
    }
    Ok(texts)
}

fn fault_of(alloc: Global, error: &Error) -> Fault
    ensures fault { Explains (kind_of error.now) result }
    ensures memory { kind_of error.now ≡ ErrorKind.OutOfMemory → result ≡ Fault.NoMemory }
{
    let status = match error.kind() {
        ErrorKind::OutOfMemory => return Fault::NoMemory,
        ErrorKind::DisplayHelp | ErrorKind::DisplayVersion => 0,
        _ => USAGE,
    };
    match format!(in alloc; "{error}") {
        Ok(text) => Fault::Said { text, status },
        Err(_) => Fault::NoMemory,
    }
}

fn command<'a>(alloc: Global) -> Result<Command<'a>, AllocError>
    ensures { IfOk result (λ command. app_of command ≡ klsm_command) }
{
    let command = unnamed_command(alloc)?;
    command.bin_name("klsm")
}

// Without its own name for the texts, which `clap` takes from the first word where it is told none.
fn unnamed_command<'a>(alloc: Global) -> Result<Command<'a>, AllocError>
    ensures { IfOk result (λ command. app_of command ≡ klsm_command) }
{
    let knapsack = knapsack_command(alloc)?;
    with_live(alloc)?.subcommand(knapsack)
}

// With the commands over scripts.
fn with_live<'a>(alloc: Global) -> Result<Command<'a>, AllocError>
    ensures { IfOk result (λ command. app_of command ≡ command_over_scripts) }
{
    let live = live_command(alloc)?;
    with_replay(alloc)?.subcommand(live)
}

// With the first of its commands alone.
fn with_replay<'a>(alloc: Global) -> Result<Command<'a>, AllocError>
    ensures { IfOk result (λ command. app_of command ≡ command_over_rows) }
{
    let replay = replay_command(alloc)?;
    bare_command(alloc).subcommand(replay)
}

fn bare_command<'a>(alloc: Global) -> Command<'a>
    ensures { app_of result ≡ bare_app }
{
    Command::new(alloc, "klsm")
        .about("A priority queue for several threads, with a proof of what it answers")
        .version(VERSION)
        .no_binary_name(true)
        .subcommand_required(true)
        .arg_required_else_help(true)
}

fn replay_command<'a>(alloc: Global) -> Result<Command<'a>, AllocError>
    ensures app { IfOk result (λ command. app_of command ≡ replay_app) }
    ensures local { IfOk result (λ command. (fields_of command).has_globals ≡ false) }
{
    let about = "Answers a script of insertions and deletions, row by row";
    let usage = "klsm replay [OPTIONS] < SCRIPT";
    with_options(alloc, described(alloc, "replay", about, usage, REPLAY_HELP))
}

fn live_command<'a>(alloc: Global) -> Result<Command<'a>, AllocError>
    ensures app { IfOk result (λ command. app_of command ≡ live_app) }
    ensures local { IfOk result (λ command. (fields_of command).has_globals ≡ false) }
{
    let about = "Runs the rows of a script by threads, and counts what is left";
    let usage = "klsm live [OPTIONS] < SCRIPT";
    with_options(alloc, described(alloc, "live", about, usage, LIVE_HELP))
}

fn knapsack_command<'a>(alloc: Global) -> Result<Command<'a>, AllocError>
    ensures app { IfOk result (λ command. app_of command ≡ knapsack_app) }
    ensures local { IfOk result (λ command. (fields_of command).has_globals ≡ false) }
{
    let about = "Finds a best selection of things for a knapsack";
    let usage = "klsm knapsack [OPTIONS] < INSTANCE";
    with_search_options(
        alloc,
        described(alloc, "knapsack", about, usage, KNAPSACK_HELP),
    )
}

// A command of this name without its options, and what its help says.
fn described<'a>(
    alloc: Global,
    name: &'a str,
    about: &'a str,
    usage: &'a str,
    help: &'a str,
) -> Command<'a>
    ensures app { app_of result ≡ new_app name.now }
    ensures local { (fields_of result).has_globals ≡ false }
{
    Command::new(alloc, name)
        .about(about)
        .override_usage(usage)
        .after_help(help)
}
