//! The words of the command line.
ghost use Rattle.std.specs.Prelude.{IfOk};
ghost use Rattle.lock_hammer.specs.Sizes.{IsPlayable};
ghost use Rattle.scenario.specs.Sizes.{IsForManager};
ghost use Rattle.scenario_program.specs.Tasks.{HasSlotGroups, OfHammer, OfRun};

use crate::helps::{HAMMER_HELP, Helps, MODES_HELP, ORDERS_HELP, SHELL_HELP};
use crate::options::RunOptions;
use crate::run_words::{
    HINTS, REUSE, hints_argument, reuse_argument, run_options_of, with_manners, with_styles,
};
use clap::error::ErrorKind;
use clap::{Arg, ArgAction, ArgMatches, Command, Error, value_parser};
use lock_hammer::Hammer;
use lock_manager::{Config, MOST_GROUPS, MOST_LOCAL, USUAL_SESSIONS};
use script_orders::OrdersOptions;
use sql_report::{SQL, sql_command};
use std::alloc::{AllocError, Global};

/// How many sessions a script may open, where the command line doesn't say, and as `--help` shows it.
const DEFAULT_SESSIONS: u32 = 8;

const DEFAULT_SESSIONS_SHOWN: &str = "8";

/// How many sessions a shell may open in its whole life, where the command line doesn't say.
const SHELL_SESSIONS_SHOWN: &str = "64";

/// How many local entries a session may have, where the command line doesn't say, and as `--help` shows it.
const DEFAULT_LOCAL: u32 = 1024;

const DEFAULT_LOCAL_SHOWN: &str = "1024";

/// How many groups of fast-path slots a session has, where the command line doesn't say, and as `--help`
/// shows it.
const DEFAULT_GROUPS: u32 = 1;

const DEFAULT_GROUPS_SHOWN: &str = "1";

/// The name of the program.
pub const PROGRAM: &str = "lock_scenario";

/// The version that `--version` shows.
pub const VERSION: &str = "0.2.0";

/// What `--help` says in its first line.
pub const ABOUT: &str = "Run scripts against PostgreSQL's lock manager";

/// The option that prints the man page.
const MAN: &str = "--man";

/// The error for `--summary` beside a picture of the whole script.
const SUMMARY_OF_A_DRAWING: &str =
    "error: the argument '--summary' cannot be used with '--graph timeline' or '--graph gantt'

Usage: lock_scenario run [OPTIONS] < SCRIPT

For more information, try '--help'.
";

/// The subcommand that runs a script's lines in every order.
const ORDERS: &str = "orders";

/// How many orders the subcommand `orders` runs at most, and how many where the command line doesn't say, and
/// as `--help` shows it.
const MOST_ORDERS: u32 = 1_000_000;

const USUAL_ORDERS: u32 = 10_000;

const USUAL_ORDERS_SHOWN: &str = "10000";

/// The seed by which orders are drawn, where the command line doesn't say, and as `--help` shows it.
const USUAL_SEED: u32 = 0;

const USUAL_SEED_SHOWN: &str = "0";

/// The subcommand that runs lines as they are typed.
const SHELL: &str = "shell";

/// The subcommand that prints the conflict table.
const MODES: &str = "modes";

/// The subcommand that has sessions lock and unlock in threads.
const HAMMER: &str = "hammer";

/// How many rounds a hammer plays at most.
const MOST_ROUNDS: u32 = 1_000_000;

/// The subcommand `hammer --sessions N --rounds K`.
fn hammer_command<'a>(alloc: Global) -> Result<Command<'a>, AllocError> {
    let sessions = Arg::new(alloc, "sessions")
        .long("sessions")
        .value_name("N")
        .help("Sessions, each in a thread of its own, 1 to 64")
        .value_parser(value_parser!(u32).range(1..=i64::from(USUAL_SESSIONS)))
        .required(true);
    let rounds = Arg::new(alloc, "rounds")
        .long("rounds")
        .value_name("K")
        .help("Locks that each asks for, 1 to 1000000")
        .value_parser(value_parser!(u32).range(1..=i64::from(MOST_ROUNDS)))
        .required(true);
    Command::new(alloc, HAMMER)
        .about("Lock and unlock in many threads, and count what is left")
        .after_help(HAMMER_HELP)
        .arg(sessions)?
        .arg(rounds)
}

/// The subcommand `command` with the options of how large the lock manager is: it has `usual_sessions`
/// sessions where they don't say.
fn with_config<'a>(
    alloc: Global,
    command: Command<'a>,
    usual_sessions: &'static str,
) -> Result<Command<'a>, AllocError> {
    let sessions = Arg::new(alloc, "sessions")
        .long("sessions")
        .value_name("N")
        .help("Sessions that may be opened, 1 to 64")
        .value_parser(value_parser!(u32).range(1..=i64::from(USUAL_SESSIONS)))
        .default_value(usual_sessions);
    let max_local = Arg::new(alloc, "max-local")
        .long("max-local")
        .value_name("M")
        .help("Different locks of a session, 1 to 65536")
        .value_parser(value_parser!(u32).range(1..=i64::from(MOST_LOCAL)))
        .default_value(DEFAULT_LOCAL_SHOWN);
    let slot_groups = Arg::new(alloc, "slot-groups")
        .long("slot-groups")
        .value_name("G")
        .help("Groups of 16 fast-path slots, 1 to 8")
        .value_parser(value_parser!(u32).range(1..=i64::from(MOST_GROUPS)))
        .default_value(DEFAULT_GROUPS_SHOWN);
    command.arg(sessions)?.arg(max_local)?.arg(slot_groups)
}

/// The subcommand `orders [--sessions N] [--max-local M] [--slot-groups G] [--limit K] [--seed S] [--ends]
/// [--hints]`.
fn orders_command<'a>(alloc: Global) -> Result<Command<'a>, AllocError> {
    let limit = Arg::new(alloc, "limit")
        .long("limit")
        .value_name("K")
        .help("Orders begun at most, 1 to 1000000")
        .value_parser(value_parser!(u32).range(1..=i64::from(MOST_ORDERS)))
        .default_value(USUAL_ORDERS_SHOWN);
    let seed = Arg::new(alloc, "seed")
        .long("seed")
        .value_name("S")
        .help("Which orders are drawn where not all are run, 0 to 4294967295")
        .value_parser(value_parser!(u32))
        .default_value(USUAL_SEED_SHOWN);
    let ends = Arg::new(alloc, "ends")
        .long("ends")
        .help("Leave out what list, count, queue, owned, blockers and waiters answer")
        .action(ArgAction::SetTrue);
    let orders = Command::new(alloc, ORDERS)
        .about("Run the script's lines in every order, and count how it ends")
        .override_usage("lock_scenario orders [OPTIONS] < SCRIPT")
        .after_help(ORDERS_HELP);
    with_config(alloc, orders, DEFAULT_SESSIONS_SHOWN)?
        .arg(limit)?
        .arg(seed)?
        .arg(ends)?
        .arg(hints_argument(alloc))
}

/// The command line: `run [--sessions N] [--max-local M] [--slot-groups G] [--echo] [--json] [--graph
/// LANGUAGE] [--sql] [--keep] [--reuse] [--summary] [--fail-on WHAT] [--hints]`, `orders [--sessions N]
/// [--max-local M] [--slot-groups G] [--limit K] [--seed S] [--ends] [--hints]`, `sql [--schema FILE]
/// [--fail-on KIND] [--single-transaction]`, `shell [--sessions N] [--max-local M] [--slot-groups G]
/// [--reuse]`, `modes`, `hammer --sessions N --rounds K`, or `--man`. The texts of its help are those of
/// `helps`.
fn command<'a>(alloc: Global, helps: &'a Helps) -> Result<Command<'a>, AllocError> {
    let run = Command::new(alloc, "run")
        .about("Run the script on standard input")
        .override_usage("lock_scenario run [OPTIONS] < SCRIPT")
        .after_help(helps.run.as_str());
    let run = with_config(alloc, run, DEFAULT_SESSIONS_SHOWN)?;
    let run = with_styles(alloc, run)?;
    let run = with_manners(alloc, run)?;
    let shell = Command::new(alloc, SHELL)
        .about("Run lines as they are typed, with help")
        .after_help(SHELL_HELP);
    let shell = with_config(alloc, shell, SHELL_SESSIONS_SHOWN)?.arg(reuse_argument(alloc))?;
    let modes = Command::new(alloc, MODES)
        .about("Print which lock modes conflict")
        .after_help(MODES_HELP);
    let man = Arg::new(alloc, "man")
        .long("man")
        .help("Print the man page")
        .action(ArgAction::SetTrue);
    Command::new(alloc, PROGRAM)
        .version(VERSION)
        .about(ABOUT)
        .after_help(helps.program.as_str())
        .subcommand_required(true)
        .arg(man)?
        .subcommand(run)?
        .subcommand(orders_command(alloc)?)?
        .subcommand(sql_command(alloc)?)?
        .subcommand(shell)?
        .subcommand(modes)?
        .subcommand(hammer_command(alloc)?)
}

/// What the words after the program's name ask for.
#[derive(Clone, Copy, Debug, PartialEq, Eq)]
pub enum Task {
    /// To run the script on standard input, with these options.
    Run(Config, RunOptions),
    /// To run the lines of the script on standard input in every order, and whether a bad line has a hint
    /// behind it.
    Orders(Config, OrdersOptions, bool),
    /// To say what the SQL statements on standard input lock.
    Sql,
    /// To run lines as they are typed, and whether the numbers of closed sessions are given out again.
    Shell(Config, bool),
    /// To have sessions lock and unlock in threads.
    Hammer(Hammer),
    /// To print the conflict table.
    Modes,
    /// To print the man page.
    Man,
}

/// Why the words of the command line ask for no run.
#[derive(Debug, Drop)]
pub enum NoRun {
    /// The words ask for this text, a help or the version.
    Text(String),
    /// The words are refused, and this text says why.
    Refused(String),
    /// Memory ran out where the words were read, or for the text of an answer.
    NoMemory,
}

impl NoRun {
    /// What comes of words of which `clap` says `error`: a text or a refusal.
    fn of(alloc: Global, error: &Error) -> Self {
        if error.kind() == ErrorKind::OutOfMemory {
            return NoRun::NoMemory;
        }
        match format!(in alloc; "{error}") {
            Ok(text) if error.use_stderr() => NoRun::Refused(text),
            Ok(text) => NoRun::Text(text),
            Err(_) => NoRun::NoMemory,
        }
    }
}

/// What `words` ask for, with each limit in its range: 1 to 64 sessions, 1 to 65,536 local entries, 1 to 8
/// groups of slots, 1 to 1,000,000 rounds. The first word is the program's name.
pub fn parse_arguments(alloc: Global, words: &[String]) -> Result<Task, NoRun>
    ensures config { IfOk result (λ task. OfRun task IsForManager) }
    ensures slot_groups { IfOk result (λ task. OfRun task HasSlotGroups) }
    ensures hammer { IfOk result (λ task. OfHammer task IsPlayable) }
{
    if asks_for_man(words) {
        return Ok(Task::Man);
    }
    match task_of(alloc, words) {
        Ok(Task::Run(_, options)) if options.summarizes_a_drawing() => Err(refuse_summary(alloc)),
        Ok(task) => Ok(task),
        Err(error) => Err(NoRun::of(alloc, &error)),
    }
}

/// The refusal of a summary for a script that one picture shows, in memory by `alloc`.
fn refuse_summary(alloc: Global) -> NoRun {
    match String::from_str(alloc, SUMMARY_OF_A_DRAWING) {
        Ok(text) => NoRun::Refused(text),
        Err(_) => NoRun::NoMemory,
    }
}

/// Whether the first of `words` after the program's name is the option that prints the man page. Where it is
/// no subcommand is wanted, as none is for the help.
fn asks_for_man(words: &[String]) -> bool {
    match words.get(1) {
        Some(word) => word.as_str() == MAN,
        None => false,
    }
}

/// The text of the help that `words` ask for.
pub fn help_text(alloc: Global, words: &'static [&'static str]) -> Result<String, AllocError> {
    let helps = Helps::new(alloc)?;
    match command(alloc, &helps)?.try_get_matches_from(words) {
        Ok(_) => Ok(String::new(alloc)),
        Err(error) => format!(in alloc; "{error}"),
    }
}

/// What `words` ask for, or `clap`'s own error.
fn task_of<'a>(alloc: Global, words: &'a [String]) -> Result<Task, Error>
    ensures config { IfOk result (λ task. OfRun task IsForManager) }
    ensures slot_groups { IfOk result (λ task. OfRun task HasSlotGroups) }
    ensures hammer { IfOk result (λ task. OfHammer task IsPlayable) }
{
    let helps = Helps::new(alloc)?;
    let matches = command(alloc, &helps)?.try_get_matches_from(words)?;
    match matches.subcommand() {
        Some((name, _)) if name == MODES => Ok(Task::Modes),
        Some((name, _)) if name == SQL => Ok(Task::Sql),
        Some((name, hammer)) if name == HAMMER => Ok(Task::Hammer(hammer_of(hammer))),
        Some((name, shell)) if name == SHELL => {
            Ok(Task::Shell(config_of(shell), shell.get_flag(REUSE)))
        }
        Some((name, orders)) if name == ORDERS => {
            Ok(Task::Orders(
                config_of(orders),
                options_of(orders),
                orders.get_flag(HINTS),
            ))
        }
        Some((_, run)) => Ok(Task::Run(config_of(run), run_options_of(run))),
        None => Ok(Task::Man),
    }
}

/// How large a lock manager `words` ask for.
fn config_of(words: &ArgMatches) -> Config
    ensures for_manager { IsForManager result }
    ensures slot_groups { HasSlotGroups result }
{
    let sessions = words.get_one::<u32>("sessions").unwrap_or(DEFAULT_SESSIONS);
    let max_local = words.get_one::<u32>("max-local").unwrap_or(DEFAULT_LOCAL);
    let slot_groups = words
        .get_one::<u32>("slot-groups")
        .unwrap_or(DEFAULT_GROUPS);
    Config {
        sessions: sessions.clamp(1, USUAL_SESSIONS),
        max_local: max_local.clamp(1, MOST_LOCAL),
        slot_groups: slot_groups.clamp(1, MOST_GROUPS),
    }
}

/// How `words` ask for orders to be run and shown.
fn options_of(words: &ArgMatches) -> OrdersOptions {
    OrdersOptions {
        limit: words.get_one::<u32>("limit").unwrap_or(USUAL_ORDERS),
        seed: words.get_one::<u32>("seed").unwrap_or(USUAL_SEED),
        ends: words.get_flag("ends"),
    }
}

/// The numbers of sessions and rounds of the hammer that `words` ask for.
fn hammer_of(words: &ArgMatches) -> Hammer
    ensures { IsPlayable result }
{
    let sessions = words.get_one::<u32>("sessions").unwrap_or(1);
    let rounds = words.get_one::<u32>("rounds").unwrap_or(1);
    Hammer {
        sessions: sessions.clamp(1, USUAL_SESSIONS),
        rounds: rounds.clamp(1, MOST_ROUNDS),
    }
}
