//! The subcommand `sql`, as a function of its words and its streams.
ghost use Rattle.std.specs.Prelude.{◌≡◌, ◌≤◌};
ghost use Rattle.sql_report.specs.Status.{status_for};

use crate::options::{FailOn, SqlOptions, SqlTask, parse_options};
use crate::report::{Refused, Report, make_report};
use std::alloc::Global;
use std::fs;
use std::io::{Read, Write};
use std::rt::Files;

/// The statuses of the subcommand `sql`, from 0 to 4: success, a fault of input, output or memory, refused
/// words, a bad statement or one whose locks are not known, and a statement that keeps those waiting whom
/// `--fail-on` names.
const SUCCESS: u8 = 0;

const FAILED: u8 = 1;

const REFUSED_WORDS: u8 = 2;

const BAD_STATEMENT: u8 = 3;

const KEEPS_WAITING: u8 = 4;

/// Says to `output` what each statement of `input` locks, and answers the status: 0, 1 for a fault of input,
/// output or memory, 2 for refused words, 3 for a bad statement or one whose locks are not known, and 4 where
/// a statement keeps those waiting whom the words name. The first two of `words` are the program's name and
/// the subcommand. What is wrong goes to `errors`; files are read by `rt`.
pub fn run_sql<H: AllocGlobal + Files, R: Read, W: Write, E: Write>(
    rt: &H,
    words: &[String],
    input: &mut R,
    output: &mut W,
    errors: &mut E,
) -> u8
    ensures { result ≤ 4 }
{
    let alloc = rt.alloc();
    let behind = words.get(1..).unwrap_or(&[]);
    match parse_options(alloc, behind) {
        SqlTask::Report(options) => run_report(rt, &options, input, output, errors),
        SqlTask::Text(text) => print(output, text.as_str(), SUCCESS),
        SqlTask::Refused(text) => {
            // Where the errors can't be written, the status says it alone.
            let _ = write!(errors, "{text}");
            REFUSED_WORDS
        }
        SqlTask::NoMemory => fail(errors, "no memory"),
    }
}

/// Reads the schema that `options` names, and the migration of `input`, prints on `output` what is said of
/// the migration, or on `errors` why nothing is, and answers the status. `rt` reads the files.
fn run_report<H: AllocGlobal + Files, R: Read, W: Write, E: Write>(
    rt: &H,
    options: &SqlOptions,
    input: &mut R,
    output: &mut W,
    errors: &mut E,
) -> u8
    ensures { result ≤ 4 }
{
    let alloc = rt.alloc();
    let schema = match &options.schema {
        Some(path) => match fs::read(rt, path.as_str()) {
            Ok(schema) => schema,
            Err(_) => return fail(errors, "the schema can't be read"),
        },
        None => Vec::new(alloc),
    };
    let mut migration = Vec::new(alloc);
    if input.read_to_end(&mut migration).is_err() {
        return fail(errors, "read failed");
    }
    match make_report(
        alloc,
        schema.as_slice(),
        migration.as_slice(),
        options.is_single,
    ) {
        Ok(report) => print(
            output,
            report.text.as_str(),
            status_of(&report, options.fail_on),
        ),
        Err(refused) => refuse(errors, &refused),
    }
}

/// The status of `report`: 4 where a statement keeps those waiting whom `fail_on` names, else 0.
pub fn status_of(report: &Report, fail_on: FailOn) -> u8
    ensures status { result ≡ status_for fail_on report.now.reads.items report.now.writes.items }
    ensures at_most { result ≤ 4 }
{
    match fail_on {
        FailOn::Nothing => SUCCESS,
        FailOn::Reads => status_of_lines(report.reads.as_slice()),
        FailOn::Writes => status_of_lines(report.writes.as_slice()),
    }
}

/// The status where the statements on `lines` keep those waiting whom the options name.
fn status_of_lines(lines: &[usize]) -> u8
    ensures reads { result ≡ status_for FailOn.Reads lines.now lines.now }
    ensures writes { result ≡ status_for FailOn.Writes lines.now lines.now }
    ensures at_most { result ≤ 4 }
{
    match lines {
        [] => SUCCESS,
        _ => KEEPS_WAITING,
    }
}

/// Prints `text` on `output`, and answers `status` where that succeeds.
fn print<W: Write>(output: &mut W, text: &str, status: u8) -> u8
    requires { status ≤ 4 }
    ensures { result ≤ 4 }
{
    if write!(output, "{text}").is_err() || output.flush().is_err() {
        return FAILED;
    }
    status
}

/// Says on `errors` why a text is refused, as `refused` has it, and answers the status.
fn refuse<E: Write>(errors: &mut E, refused: &Refused) -> u8
    ensures { result ≤ 4 }
{
    if refused.is_out_of_memory {
        return fail(errors, "no memory");
    }
    // Where the errors can't be written, the status says it alone.
    let _ = write!(errors, "{}", refused.text);
    BAD_STATEMENT
}

/// Says on `errors` that nothing is reported, for the reason `why`, and answers the status.
fn fail<E: Write>(errors: &mut E, why: &str) -> u8
    ensures { result ≤ 4 }
{
    // Where the errors can't be written, the status says it alone.
    let _ = writeln!(errors, "{why}");
    FAILED
}
