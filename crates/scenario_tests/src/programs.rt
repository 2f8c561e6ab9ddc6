//! The program's statuses, and what it writes, where its words or its input can't be read and where its
//! output can't be written. What it does otherwise stands in .ci/rows.
use crate::pipes::Pipe;
use scenario_program::{Errors, Source, run_program};
use std::alloc::Global;
use std::io::{self, ErrorKind, Read};
use std::process::Abort;
use std::rt::Files;
use std::sync::Wait;
use std::test::Fail;
use std::thread::Threads;
use std::time::Clock;

/// A reader of a text, which fails at the end of the text if it is to.
#[derive(Drop)]
struct Input<'a> {
    text: &'a [u8],
    fails: bool,
}

impl Read for Input<'_> {
    fn read(&mut self, buf: &mut [u8]) -> io::Result<usize> {
        if self.text.is_empty() && self.fails {
            return Err(io::Error::from(ErrorKind::Other));
        }
        self.text.read(buf)
    }
}

pub fn words_of(alloc: Global, line: &str) -> Result<Vec<String>, Fail> {
    let mut words = Vec::new(alloc);
    for word in line.split(' ') {
        words.push(String::from_str(alloc, word)?)?;
    }
    Ok(words)
}

/// A script, whether reading it fails at its end, and whether it is typed and the errors are read at a
/// terminal; the status of the program on it, and what it writes to its output and to its errors.
type Run<'a> = (&'a str, bool, bool, u8, &'a str, &'a str);

const OPENED: &str = "a: session 0 database 5\n";

/// Words with a run of the program on them, whose reader fails at its end.
static FAILING: [(&str, Run<'static>); 6] = [
    (
        "lock_scenario run",
        ("session a 5\nses", true, false, 1, OPENED, "read failed\n"),
    ),
    (
        "lock_scenario run --hints",
        ("session a 5\nses", true, false, 1, OPENED, "read failed\n"),
    ),
    (
        "lock_scenario run",
        (
            "",
            true,
            true,
            1,
            "",
            "reading a script from the terminal, to its end (Ctrl-D); run --help shows its lines\nread failed\n",
        ),
    ),
    (
        "lock_scenario sql",
        ("SELECT 1", true, false, 1, "", "read failed\n"),
    ),
    (
        "lock_scenario orders",
        ("session a", true, false, 1, "", "read failed\n"),
    ),
    (
        "lock_scenario shell",
        ("session a 5\nfrob", true, false, 1, OPENED, "read failed\n"),
    ),
];

/// Why words can't be read, with a run of the program then.
static UNREAD: [(ErrorKind, Run<'static>); 2] = [
    (
        ErrorKind::InvalidData,
        (
            "session a 5\n",
            false,
            false,
            2,
            "",
            "error: invalid UTF-8 was detected in one or more arguments\n",
        ),
    ),
    (
        ErrorKind::OutOfMemory,
        ("session a 5\n", false, false, 1, "", "no memory\n"),
    ),
];

/// Runs the program on `words`, and checks its status and both its texts by `run`.
fn expect_program(
    rt: &(impl Abort + AllocGlobal + Clock + Files + Threads + Wait + Sync),
    words: io::Result<Vec<String>>,
    run: Run<'_>,
) {
    let (script, fails, is_terminal, status, printed, said) = run;
    let reader = Source {
        reader: Input {
            text: script.as_bytes(),
            fails,
        },
        is_terminal,
    };
    let alloc: Global = rt.alloc();
    let (mut output, mut errors) = (Vec::new(alloc), Vec::new(alloc));
    let mut said_to = Errors {
        writer: &mut errors,
        is_terminal,
    };
    let answer = run_program(rt, words, reader, &mut output, &mut said_to);
    assert_eq!(rt; answer, status, "the status of {script:?}");
    assert_eq!(rt;
        output.as_slice(),
        printed.as_bytes(),
        "the output of {script:?}"
    );
    assert_eq!(rt;
        errors.as_slice(),
        said.as_bytes(),
        "the errors of {script:?}"
    );
}

#[test]
fn tells_of_readers_that_fail(rt: HostRuntime) -> Result<(), Fail> {
    for (line, run) in &FAILING {
        expect_program(&rt, Ok(words_of(rt.alloc(), line)?), *run);
    }
    for (kind, run) in &UNREAD {
        expect_program(&rt, Err(io::Error::from(*kind)), *run);
    }
    Ok(())
}

/// The words, a script, how many lines the output takes and whether a flush, the status, and how many lines
/// the errors take.
type Closed = (&'static str, &'static str, u32, bool, u8, u32);

/// Runs with writers that fail. A line that the errors don't take changes no status.
static CLOSED: [Closed; 13] = [
    ("lock_scenario modes", "", 7, true, 1, 1),
    ("lock_scenario modes", "", 1000, false, 1, 1),
    ("lock_scenario run", "session a 5\n", 0, true, 1, 1),
    ("lock_scenario run", "session a 5\n", 1000, false, 1, 1),
    ("lock_scenario --help", "", 0, true, 1, 1),
    ("lock_scenario --help", "", 1000, false, 1, 1),
    ("lock_scenario --version", "", 0, true, 1, 1),
    ("lock_scenario --version", "", 1000, false, 1, 1),
    ("lock_scenario run", "frob\n", 1000, true, 3, 0),
    ("lock_scenario run", "\u{e9}\n", 1000, true, 3, 0),
    (
        "lock_scenario hammer --sessions 2 --rounds 3",
        "",
        1,
        true,
        1,
        1,
    ),
    ("lock_scenario storm", "", 1000, true, 2, 0),
    ("lock_scenario run --sessions 65", "", 1000, true, 2, 0),
];

/// Runs the program on `words` with the writers of `run`, and checks its status, and that it writes what the
/// errors take.
fn expect_closed(
    rt: &(impl Abort + AllocGlobal + Clock + Files + Threads + Wait + Sync),
    words: Vec<String>,
    run: Closed,
) {
    let (line, script, lines, flushes, status, said) = run;
    let output = Pipe { lines, flushes };
    let mut pipe = Pipe {
        lines: said,
        flushes: false,
    };
    let mut errors = Errors {
        writer: &mut pipe,
        is_terminal: false,
    };
    let input = Source {
        reader: script.as_bytes(),
        is_terminal: false,
    };
    let answer = run_program(rt, Ok(words), input, output, &mut errors);
    assert_eq!(rt; answer, status, "the status of {line:?}");
    assert_eq!(rt; pipe.lines, 0, "the errors of {line:?}");
}

#[test]
fn tells_of_writers_that_fail(rt: HostRuntime) -> Result<(), Fail> {
    for run in &CLOSED {
        expect_closed(&rt, words_of(rt.alloc(), run.0)?, *run);
    }
    Ok(())
}
