//! The words, the statuses and the streams of the subcommand `sql`.

use sql_report::run_sql;
use std::alloc::Global;
use std::io::{self, ErrorKind, Read, Write};
use std::process::Abort;
use std::rt::Files;
use std::test::Fail;

/// A reader of `text`. If `fails`, it fails where the text ends.
#[derive(Drop)]
struct Input<'a> {
    text: &'a [u8],
    fails: bool,
}

impl Read for Input<'_> {
    fn read(&mut self, buf: &mut [u8]) -> io::Result<usize> {
        if self.text.is_empty() && self.fails {
            return Err(io::Error::from(ErrorKind::Other));
        }
        self.text.read(buf)
    }
}

/// A writer to which every write fails.
#[derive(Drop)]
struct Full;

impl Write for Full {
    fn write(&mut self, _: &[u8]) -> io::Result<usize> {
        Err(io::Error::from(ErrorKind::Other))
    }

    fn flush(&mut self) -> io::Result<()> {
        Ok(())
    }
}

/// The statements that words are tried on: those of `QUIET` keep nobody waiting but index builds, those of
/// `STOPS_WRITES` keep writes waiting, and those of `STOPS_READS` keep reads waiting too.
const QUIET: &str = "CREATE TABLE t (a int);\nCOMMIT;\nINSERT INTO t VALUES (1);";

const STOPS_WRITES: &str = "CREATE TABLE t (a int);\nCREATE INDEX i ON t (a);";

const STOPS_READS: &str = "CREATE TABLE t (a int);\nALTER TABLE t ADD b int;";

/// Command lines with words after `sql`, the statements for each, its status, and a part of what it writes to
/// the output or the errors.
static RUNS: [(&str, &str, u8, &str); 16] = [
    ("lock_scenario sql", QUIET, 0, "keep writes waiting: 0"),
    (
        "lock_scenario sql",
        STOPS_READS,
        0,
        "keep reads waiting: 1, by line 2",
    ),
    (
        "lock_scenario sql --fail-on writes",
        QUIET,
        0,
        "statements: 3",
    ),
    (
        "lock_scenario sql --fail-on writes",
        STOPS_WRITES,
        4,
        "keep writes waiting: 1, by line 2",
    ),
    (
        "lock_scenario sql --fail-on reads",
        STOPS_WRITES,
        0,
        "keep reads waiting: 0",
    ),
    (
        "lock_scenario sql --fail-on reads",
        STOPS_READS,
        4,
        "keep reads waiting: 1, by line 2",
    ),
    (
        "lock_scenario sql --fail-on writes",
        STOPS_READS,
        4,
        "keep writes waiting: 1, by line 2",
    ),
    (
        "lock_scenario sql --fail-on reads --single-transaction",
        STOPS_READS,
        0,
        "made here and known to nobody else\n  works for a moment, and holds its locks until COMMIT",
    ),
    ("lock_scenario sql --fail-on", QUIET, 2, "--fail-on"),
    ("lock_scenario sql --fail-on waits", QUIET, 2, "waits"),
    ("lock_scenario sql more", QUIET, 2, "more"),
    (
        "lock_scenario sql --help",
        QUIET,
        0,
        "Usage: lock_scenario sql [OPTIONS] < MIGRATION",
    ),
    (
        "lock_scenario sql --schema no/such/file",
        QUIET,
        1,
        "the schema can't be read\n",
    ),
    (
        "lock_scenario sql",
        "SELECT 1;\nSELECT 'a",
        3,
        "line 2: a text in quotes does not end: 'a\n",
    ),
    (
        "lock_scenario sql",
        "SELECT * FROM t;",
        3,
        "line 1: no such relation: t\n",
    ),
    ("lock_scenario sql", "", 0, "statements: 0\n"),
];

fn words_of(alloc: Global, line: &str) -> Result<Vec<String>, Fail> {
    let mut words = Vec::new(alloc);
    for word in line.split(' ') {
        words.push(String::from_str(alloc, word)?)?;
    }
    Ok(words)
}

/// Whether `text` has the part `part`.
fn has_part(text: &[u8], part: &str) -> bool {
    let part = part.as_bytes();
    text.windows(part.len().max(1)).any(|window| window == part)
}

/// Tries the command line of `row` on the statements of `row`. Fails where the status or the text is another.
fn try_run<H: AllocGlobal + Files + Abort>(
    rt: &H,
    row: &(&str, &str, u8, &str),
) -> Result<(), Fail> {
    let alloc = rt.alloc();
    let (line, statements, want, part) = *row;
    let words = words_of(alloc, line)?;
    let mut input = Input {
        text: statements.as_bytes(),
        fails: false,
    };
    let (mut output, mut errors) = (Vec::new(alloc), Vec::new(alloc));
    let status = run_sql(rt, words.as_slice(), &mut input, &mut output, &mut errors);
    assert!(rt; status == want, "{line}: {status}");
    let said = if status == 0 || status == 4 {
        &output
    } else {
        &errors
    };
    assert!(rt; has_part(said.as_slice(), part), "{line}: {part}");
    let other = if status == 0 || status == 4 {
        &errors
    } else {
        &output
    };
    assert!(rt; other.is_empty(), "{line}");
    Ok(())
}

#[test]
fn each_words_have_their_status_and_their_text(rt: HostRuntime) -> Result<(), Fail> {
    for row in &RUNS {
        try_run(&rt, row)?;
    }
    Ok(())
}

#[test]
fn streams_that_fail_end_with_status_1(rt: HostRuntime) -> Result<(), Fail> {
    let alloc = rt.alloc();
    let words = words_of(alloc, "lock_scenario sql")?;
    let mut input = Input {
        text: QUIET.as_bytes(),
        fails: true,
    };
    let (mut output, mut errors) = (Vec::new(alloc), Vec::new(alloc));
    let status = run_sql(&rt, words.as_slice(), &mut input, &mut output, &mut errors);
    assert!(rt; status == 1, "input: {status}");
    assert!(rt; output.is_empty());
    assert!(rt; errors.as_slice() == b"read failed\n".as_slice());
    let mut input = Input {
        text: QUIET.as_bytes(),
        fails: false,
    };
    let mut errors = Vec::new(alloc);
    let status = run_sql(&rt, words.as_slice(), &mut input, &mut Full, &mut errors);
    assert!(rt; status == 1, "output: {status}");
    let mut input = Input {
        text: b"SELECT * FROM t;",
        fails: false,
    };
    let mut output = Vec::new(alloc);
    let status = run_sql(&rt, words.as_slice(), &mut input, &mut output, &mut Full);
    assert!(rt; status == 3, "errors: {status}");
    Ok(())
}
