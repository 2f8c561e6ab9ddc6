//! The requests of .ci/rows/requests.rows on `run_script`, by readers that give some bytes a read, and
//! scripts whose output can't be written.
use crate::pipes::Pipe;
use crate::requests::REQUESTS;
use lock_manager::{Config, MOST_GROUPS, MOST_LOCAL, USUAL_SESSIONS};
use lock_script::Fault;
use scenario::run_script;
use std::io::{self, ErrorKind, Read};
use std::process::Abort;
use std::sync::Wait;
use std::test::Fail;

/// A reader of a text that gives a fixed number of bytes a read, and is interrupted before each.
#[derive(Drop)]
struct Script<'a> {
    text: &'a [u8],
    most: usize,
    interrupted: bool,
}

impl Read for Script<'_> {
    fn read(&mut self, buf: &mut [u8]) -> io::Result<usize> {
        self.interrupted = !self.interrupted;
        if self.interrupted {
            return Err(io::Error::from(ErrorKind::Interrupted));
        }
        let most = self.most.min(buf.len());
        self.text.read(&mut buf[..most])
    }
}

pub const ALL_SESSIONS: Config = Config {
    sessions: 64,
    max_local: 1024,
    slot_groups: 1,
};

/// Runs `script`, which is read `most` bytes at a time, and checks that it ends well and prints `printed`.
/// Numbers of `config` that are out of their ranges are brought into them.
fn expect_read(
    rt: &(impl Abort + AllocGlobal + Wait),
    config: Config,
    most: usize,
    script: &str,
    printed: &str,
) {
    let reader = Script {
        text: script.as_bytes(),
        most,
        interrupted: false,
    };
    let within = Config {
        sessions: config.sessions.clamp(1, USUAL_SESSIONS),
        max_local: config.max_local.clamp(1, MOST_LOCAL),
        slot_groups: config.slot_groups.clamp(1, MOST_GROUPS),
    };
    let mut output = Vec::new(rt.alloc());
    let (_, ended) = run_script(rt, reader, &mut output, within);
    assert!(rt; ended == Ok(()), "the fault of {script:?}");
    assert_eq!(rt;
        output.as_slice(),
        printed.as_bytes(),
        "the output of {script:?}"
    );
}

#[test]
fn requests_are_answered_as_the_rows_say(rt: HostRuntime) -> Result<(), Fail> {
    for (config, script, printed) in &REQUESTS {
        for most in [1, 7, 4096] {
            expect_read(&rt, *config, most, script, printed);
        }
    }
    Ok(())
}

/// A script whose last line is cut short.
const CUT_SHORT: &str = "session a 5\nhash 5/16384\nsess";

/// A script whose sixth printed line is written by the pass after the last command.
const WAKES: &str =
    "session a 5\nsession b 5\ntry a 5/1 ShareLock\nlock b 5/1 ExclusiveLock\ncommit a\n";

/// Twelve sessions wait, whose names are not in their order, and one commit wakes them all.
const TWELVE_WAIT: &str =
    "session holder 5\ntry holder 5/1259/16384/0 AccessExclusiveLock\nsession m 5\n\
             lock m 5/1259/16384/0 ShareLock\nsession k 5\nlock k 5/1259/16384/0 ShareLock\n\
             session z 5\nlock z 5/1259/16384/0 ShareLock\nsession b 5\n\
             lock b 5/1259/16384/0 ShareLock\nsession y 5\nlock y 5/1259/16384/0 ShareLock\n\
             session c 5\nlock c 5/1259/16384/0 ShareLock\nsession x 5\n\
             lock x 5/1259/16384/0 ShareLock\nsession d 5\nlock d 5/1259/16384/0 ShareLock\n\
             session w 5\nlock w 5/1259/16384/0 ShareLock\nsession a_b 5\n\
             lock a_b 5/1259/16384/0 ShareLock\nsession e9 5\nlock e9 5/1259/16384/0 ShareLock\n\
             session a 5\nlock a 5/1259/16384/0 ShareLock\ncommit holder\n";

/// Runs `script` with the output `pipe`, which takes some lines, and a flush only if it is to, and checks
/// that it ends as `expected`.
fn expect_ended(
    rt: &(impl Abort + AllocGlobal + Wait),
    script: &str,
    pipe: Pipe,
    expected: Result<(), Fault>,
) {
    let (_, ended) = run_script(rt, script.as_bytes(), pipe, ALL_SESSIONS);
    assert!(rt; ended == expected, "{script:?}");
}

#[test]
fn a_line_that_cannot_be_written_ends_a_script(rt: HostRuntime) -> Result<(), Fail> {
    let failed = Err(Fault::WriteFailed);
    for (script, lines, flushes, expected) in [
        (CUT_SHORT, 0, true, failed),
        (CUT_SHORT, 1, true, failed),
        (CUT_SHORT, 1000, false, failed),
        (WAKES, 5, true, failed),
        (WAKES, 6, true, Ok(())),
        (TWELVE_WAIT, 39, true, Ok(())),
    ] {
        expect_ended(&rt, script, Pipe { lines, flushes }, expected);
    }
    // Whichever of the lines of a pass can't be written.
    for lines in 27..39 {
        let flushes = true;
        expect_ended(&rt, TWELVE_WAIT, Pipe { lines, flushes }, failed);
    }
    Ok(())
}
