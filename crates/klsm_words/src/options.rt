//! The options of the commands.
ghost use Rattle.std.specs.Prelude.{◌≡◌, ◌≤◌, Some, None, IfOk, IfSome, false};
ghost use Rattle.clap.specs.Words.{app_of, found_of, rows_of, rule_of};
ghost use Rattle.clap.specs.declared.builder.command.Command.TheViews.{out-Command as fields_of};
ghost use Rattle.klsm_words.specs.Options.{AreInRange, number_at, option_rule, pick_at, pick_of};
ghost use Rattle.klsm_words.specs.Options.{IsSearchInRange, k_rule, search_at, settings_at};
ghost use Rattle.klsm_words.specs.Options.{with_options as with_options_of};
ghost use Rattle.klsm_words.specs.Options.{with_search_options as with_search_options_of};
ghost use Rattle.klsm_words.specs.Options.{with_balance as with_balance_of};
ghost use Rattle.klsm_words.specs.Options.{with_pick as with_pick_of};
ghost use Rattle.klsm_words.specs.Options.{with_refill as with_refill_of};
ghost use Rattle.klsm_words.specs.Options.{with_threads as with_threads_of};

use crate::settings::{ScriptSettings, Search};
use clap::builder::ValueParser;
use clap::{Arg, ArgMatches, Command, value_parser};
use klsm_parts::Pick;
use klsm_run::{PROGRAM_K, PROGRAM_THREADS};
use std::alloc::{AllocError, Global};

/// A command over scripts, with its options.
pub(crate) fn with_options<'a>(
    alloc: Global,
    command: Command<'a>,
) -> Result<Command<'a>, AllocError>
    ensures app { IfOk result (λ with. app_of with ≡ with_options_of (app_of command.entry)) }
    ensures local { (fields_of command.entry).has_globals ≡ false
        → IfOk result (λ with. (fields_of with).has_globals ≡ false) }
{
    with_pick(alloc, command)?.arg(number(alloc, SEED, "1", SEED_HELP, value_parser!(u64)))
}

// All but the last of them.
fn with_pick<'a>(alloc: Global, command: Command<'a>) -> Result<Command<'a>, AllocError>
    ensures app { IfOk result (λ with. app_of with ≡ with_pick_of (app_of command.entry)) }
    ensures local { (fields_of command.entry).has_globals ≡ false
        → IfOk result (λ with. (fields_of with).has_globals ≡ false) }
{
    with_balance(alloc, command)?.arg(option(alloc, PICK, "first", "PICK", PICK_HELP))
}

// Those of how many threads and items there are, and of when a thread balances.
fn with_balance<'a>(alloc: Global, command: Command<'a>) -> Result<Command<'a>, AllocError>
    ensures app { IfOk result (λ with. app_of with ≡ with_balance_of (app_of command.entry)) }
    ensures local { (fields_of command.entry).has_globals ≡ false
        → IfOk result (λ with. (fields_of with).has_globals ≡ false) }
{
    let command = with_refill(alloc, command)?;
    let up_to_most = value_parser!(u64).range(0..=u32::MAX as i64);
    command.arg(number(alloc, BALANCE, "0", BALANCE_HELP, up_to_most))
}

// Those of how many threads and items there are.
fn with_refill<'a>(alloc: Global, command: Command<'a>) -> Result<Command<'a>, AllocError>
    ensures app { IfOk result (λ with. app_of with ≡ with_refill_of (app_of command.entry)) }
    ensures local { (fields_of command.entry).has_globals ≡ false
        → IfOk result (λ with. (fields_of with).has_globals ≡ false) }
{
    let command = with_threads(alloc, command, THREADS_HELP, K_HELP)?;
    let up_to_k = value_parser!(u64).range(0..=PROGRAM_K as i64);
    command.arg(number(alloc, REFILL, "0", REFILL_HELP, up_to_k))
}

/// A command over instances, with its options.
pub(crate) fn with_search_options<'a>(
    alloc: Global,
    command: Command<'a>,
) -> Result<Command<'a>, AllocError>
    ensures app { IfOk result (λ with.
        app_of with ≡ with_search_options_of (app_of command.entry)) }
    ensures local { (fields_of command.entry).has_globals ≡ false
        → IfOk result (λ with. (fields_of with).has_globals ≡ false) }
{
    let command = with_threads(alloc, command, WORKERS_HELP, NODES_HELP)?;
    let up_to_a_million = value_parser!(u64).range(0..=1_000_000);
    command.arg(number(alloc, IDLE, "64", IDLE_HELP, up_to_a_million))
}

// With the options that every command has: how many threads there are, and how many items each keeps
// for itself.
fn with_threads<'a>(
    alloc: Global,
    command: Command<'a>,
    threads_help: &'a str,
    k_help: &'a str,
) -> Result<Command<'a>, AllocError>
    ensures app { IfOk result (λ with. app_of with ≡ with_threads_of (app_of command.entry)) }
    ensures local { (fields_of command.entry).has_globals ≡ false
        → IfOk result (λ with. (fields_of with).has_globals ≡ false) }
{
    let one_to_most = value_parser!(u64).range(1..=PROGRAM_THREADS as i64);
    let command = command.arg(number(alloc, THREADS, "1", threads_help, one_to_most))?;
    command.arg(k_option(alloc, k_help))
}

// How many items each thread keeps for itself.
fn k_option<'a>(alloc: Global, help: &'a str) -> Arg<'a>
    ensures rule { rule_of result ≡ k_rule }
    ensures local { result.global ≡ false }
{
    let up_to_most = value_parser!(u64).range(0..=PROGRAM_K as i64);
    number(alloc, K, "64", help, up_to_most).short('k')
}

// An option whose value is a number that the parser takes.
fn number<'a>(
    alloc: Global,
    name: &'a str,
    default: &'a str,
    help: &'a str,
    parser: ValueParser<'a>,
) -> Arg<'a>
    ensures rule { rule_of result
        ≡ option_rule name.entry.now default.entry.now (Some parser.entry) }
    ensures local { result.global ≡ false }
{
    option(alloc, name, default, "N", help).value_parser(parser)
}

fn option<'a>(
    alloc: Global,
    name: &'a str,
    default: &'a str,
    value: &'a str,
    help: &'a str,
) -> Arg<'a>
    ensures rule { rule_of result ≡ option_rule name.entry.now default.entry.now None }
    ensures local { result.global ≡ false }
{
    Arg::new(alloc, name)
        .long(name)
        .value_name(value)
        .default_value(default)
        .help(help)
}

/// The settings that the options come to, or `None` where the word of `--pick` is no pick. Whether the
/// number of `--refill` is at most that of `--k` is still to be seen.
pub(crate) fn settings_of(options: &ArgMatches) -> Option<ScriptSettings>
    ensures settings { result ≡ settings_at (rows_of (found_of options.now)) }
    ensures range { IfSome result (λ settings.
        settings.refill ≤ settings.k → AreInRange settings) }
{
    let pick = pick_in(options)?;
    Some(ScriptSettings {
        threads: number_in(options, THREADS, 1, PROGRAM_THREADS as u64) as usize,
        k: number_in(options, K, 0, PROGRAM_K as u64) as usize,
        refill: number_in(options, REFILL, 0, PROGRAM_K as u64) as usize,
        balance: number_in(options, BALANCE, 0, u32::MAX as u64) as u32,
        pick,
        seed: number_in(options, SEED, 0, u64::MAX),
    })
}

/// The settings of a search that the options come to.
pub(crate) fn search_of(options: &ArgMatches) -> Search
    ensures search { result ≡ search_at (rows_of (found_of options.now)) }
    ensures range { IsSearchInRange result }
{
    let threads = number_in(options, THREADS, 1, PROGRAM_THREADS as u64);
    let k = number_in(options, K, 0, PROGRAM_K as u64);
    let idle = number_in(options, IDLE, 0, 1_000_000);
    Search {
        threads: threads as usize,
        k: k as usize,
        idle: idle as u32,
    }
}

// The number of an option. The parser takes none outside the range.
fn number_in(options: &ArgMatches, name: &str, least: u64, most: u64) -> u64
    ensures { result ≡ number_at (rows_of (found_of options.now)) name.now least most }
{
    options
        .get_one::<u64>(name)
        .unwrap_or(0)
        .max(least)
        .min(most)
}

fn pick_in(options: &ArgMatches) -> Option<Pick>
    ensures { result ≡ pick_at (rows_of (found_of options.now)) }
{
    pick_named(options.get_str(PICK)?)
}

fn pick_named(word: &str) -> Option<Pick>
    ensures { result ≡ pick_of word.now }
{
    match word {
        "first" => Some(Pick::First),
        "last" => Some(Pick::Last),
        "random" => Some(Pick::Random),
        _ => None,
    }
}

const THREADS: &str = "threads";

const K: &str = "k";

const REFILL: &str = "refill";

const BALANCE: &str = "balance";

const PICK: &str = "pick";

const SEED: &str = "seed";

const IDLE: &str = "idle";

// The parser appends the default and breaks no line itself.

const THREADS_HELP: &str = "How many threads the rows may name, 1 to 16";

const K_HELP: &str = "How many items each keeps for itself, 0 to 64";

const REFILL_HELP: &str = "\
How many items a deletion of a shared one moves to its
thread at most, 0 to 64, but no more than K";

const BALANCE_HELP: &str = "\
Before each N-th of its deletions a thread takes over up
to 4 small items of the next other thread in turn,
0 to 4294967295; 0 is never";

const PICK_HELP: &str = "\
Which candidate a deletion picks:
first, last or random";

const SEED_HELP: &str = "What the random picks follow from";

const WORKERS_HELP: &str = "How many workers search, 1 to 16";

const NODES_HELP: &str = "How many nodes each keeps for itself, 0 to 64";

const IDLE_HELP: &str = "\
After how many answers 'nothing' in a row a worker ends,
0 to 1000000";
