//! The words of `run` that say how its script is run, and what is shown of it.

use crate::options::{FAILURES, FailOn, RunOptions};
use clap::{Arg, ArgAction, ArgMatches, Command};
use scenario::{DRAWINGS, Drawing, Style, Turns};
use std::alloc::{AllocError, Global};

/// The subcommand `run` with the options that say what a run shows.
pub fn with_styles<'a>(alloc: Global, run: Command<'a>) -> Result<Command<'a>, AllocError> {
    let echo = Arg::new(alloc, "echo")
        .long("echo")
        .help("Print each line of the script before its answers")
        .action(ArgAction::SetTrue);
    let json = Arg::new(alloc, "json")
        .long("json")
        .help("Print an object of JSON for each line, instead of its text")
        .action(ArgAction::SetTrue);
    let graph = Arg::new(alloc, "graph")
        .long("graph")
        .value_name("LANGUAGE")
        .help("Draw who waits for whom, behind each list or at the end, or the whole script")
        .value_parser(DRAWINGS.as_slice());
    run.arg(echo)?.arg(json)?.arg(graph)
}

/// The name of the option by which the numbers of closed sessions are given out again.
pub const REUSE: &str = "reuse";

/// The argument `--reuse` of a command, by which the numbers of closed sessions are given out again. Takes
/// memory by `alloc`.
pub fn reuse_argument<'a>(alloc: Global) -> Arg<'a> {
    Arg::new(alloc, REUSE)
        .long(REUSE)
        .help("Give the numbers of closed sessions to new ones, the lowest first")
        .action(ArgAction::SetTrue)
}

/// The name of the option by which a bad line has a hint behind it.
pub const HINTS: &str = "hints";

/// The argument `--hints` of a command, by which a bad line has a hint behind it. Takes memory by `alloc`.
pub fn hints_argument<'a>(alloc: Global) -> Arg<'a> {
    Arg::new(alloc, HINTS)
        .long(HINTS)
        .help("Say behind a bad line which word is wrong, and the nearest good one")
        .action(ArgAction::SetTrue)
}

/// The subcommand `run` with the options of how its script is run, what is listed at its end, what it fails
/// for, and what is said of a bad line.
pub fn with_manners<'a>(alloc: Global, run: Command<'a>) -> Result<Command<'a>, AllocError> {
    let sql = Arg::new(alloc, "sql")
        .long("sql")
        .help("Play the SQL that a script says by schema, do, work and done")
        .action(ArgAction::SetTrue);
    let keep = Arg::new(alloc, "keep")
        .long("keep")
        .help("Keep a line whose session waits, and run it once that goes on")
        .action(ArgAction::SetTrue);
    let fail_on = Arg::new(alloc, "fail-on")
        .long("fail-on")
        .value_name("WHAT")
        .help("End with status 4 on these, with commas between")
        .value_delimiter(',')
        .value_parser(FAILURES.as_slice());
    let summary = Arg::new(alloc, "summary")
        .long("summary")
        .help("Tell at the end who waited, for what and behind whom")
        .action(ArgAction::SetTrue);
    run.arg(sql)?
        .arg(keep)?
        .arg(reuse_argument(alloc))?
        .arg(summary)?
        .arg(fail_on)?
        .arg(hints_argument(alloc))
}

/// The options of a run that `words` ask for.
pub fn run_options_of(words: &ArgMatches) -> RunOptions {
    RunOptions {
        style: style_of(words),
        turns: Turns {
            keep: words.get_flag("keep"),
            reuse: words.get_flag(REUSE),
            sql: words.get_flag("sql"),
        },
        summary: words.get_flag("summary"),
        fail_on: FailOn::named(words.get_strs("fail-on").unwrap_or(&[])),
        hints: words.get_flag(HINTS),
    }
}

/// The style that `words` ask for.
fn style_of(words: &ArgMatches) -> Style {
    Style {
        echo: words.get_flag("echo"),
        json: words.get_flag("json"),
        graph: words.get_one::<Drawing>("graph"),
    }
}
