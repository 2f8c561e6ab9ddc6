//! The words of the subcommand `sql`.

use clap::error::ErrorKind;
use clap::{Arg, ArgAction, ArgMatches, Command, Error};
use std::alloc::{AllocError, Global};

/// What `--fail-on` has the program fail on.
#[derive(Clone, Copy, PartialEq, Eq)]
pub enum FailOn {
    Nothing,
    /// The program fails on a statement that keeps reads waiting.
    Reads,
    /// The program fails on a statement that keeps writes waiting.
    Writes,
}

/// What the words after `lock_scenario sql` ask for, where they ask for a report.
#[derive(Drop)]
pub struct SqlOptions {
    /// The file of the statements that were run before the migration, if one is named.
    pub schema: Option<String>,
    pub fail_on: FailOn,
    /// Whether all statements of the migration are one transaction.
    pub is_single: bool,
}

/// What the words after `lock_scenario sql` come to.
#[derive(Drop)]
pub enum SqlTask {
    Report(SqlOptions),
    /// The words ask for this text.
    Text(String),
    /// The words are refused, and this text says why.
    Refused(String),
    NoMemory,
}

/// The kinds of waits that `--fail-on` may name.
static KINDS: [&str; 2] = ["reads", "writes"];

/// What `lock_scenario sql --help` shows beside its options.
const SQL_HELP: &str =
    "Of each statement it says, with its line: which relations it locks, in which mode and
order, how long it works and until when the locks are held, whom that keeps waiting,
and behind whom it waits itself. A function's and a trigger's body are not looked into.

Status:  0 all was said, 1 input, output or memory failed, 2 these words were refused,
         3 a statement is bad or its locks are not known, 4 what --fail-on names

Example:
  lock_scenario sql --schema schema.sql --fail-on writes < migration.sql";

/// The word that asks for the subcommand.
pub const SQL: &str = "sql";

/// The subcommand `sql [--schema FILE] [--fail-on KIND] [--single-transaction]` of `lock_scenario`, in memory
/// of `alloc`.
pub fn sql_command<'a>(alloc: Global) -> Result<Command<'a>, AllocError> {
    let schema = Arg::new(alloc, "schema")
        .long("schema")
        .value_name("FILE")
        .help("Statements that made what the migration finds, as pg_dump --schema-only writes");
    let fail_on = Arg::new(alloc, "fail-on")
        .long("fail-on")
        .value_name("KIND")
        .help("End with status 4 where a statement keeps these waiting")
        .value_parser(KINDS.as_slice());
    let single = Arg::new(alloc, "single-transaction")
        .long("single-transaction")
        .help("Take all statements for one transaction")
        .action(ArgAction::SetTrue);
    Command::new(alloc, SQL)
        .about("Say what each SQL statement on standard input locks")
        .override_usage("lock_scenario sql [OPTIONS] < MIGRATION")
        .after_help(SQL_HELP)
        .arg(schema)?
        .arg(fail_on)?
        .arg(single)
}

/// What `words` ask for, of which the first one, the subcommand's, is passed over.
pub fn parse_options(alloc: Global, words: &[String]) -> SqlTask {
    match options_of(alloc, words) {
        Ok(options) => SqlTask::Report(options),
        Err(error) => task_of_error(alloc, &error),
    }
}

/// The task of words that ask for no report, by the `error` that `clap` has for them: a text of help, or a
/// refusal.
fn task_of_error(alloc: Global, error: &Error) -> SqlTask {
    if error.kind() == ErrorKind::OutOfMemory {
        return SqlTask::NoMemory;
    }
    match format!(in alloc; "{error}") {
        Ok(text) if error.use_stderr() => SqlTask::Refused(text),
        Ok(text) => SqlTask::Text(text),
        Err(_) => SqlTask::NoMemory,
    }
}

/// The options that `words` name.
fn options_of(alloc: Global, words: &[String]) -> Result<SqlOptions, Error> {
    let matches = sql_command(alloc)?.try_get_matches_from(words)?;
    let schema = match matches.get_str("schema") {
        Some(path) => Some(String::from_str(alloc, path)?),
        None => None,
    };
    Ok(SqlOptions {
        schema,
        fail_on: fail_on(&matches),
        is_single: matches.get_flag("single-transaction"),
    })
}

/// What the words that `matches` has read would have the program fail on.
fn fail_on(matches: &ArgMatches) -> FailOn {
    match matches.get_str("fail-on") {
        Some("reads") => FailOn::Reads,
        Some("writes") => FailOn::Writes,
        _ => FailOn::Nothing,
    }
}
