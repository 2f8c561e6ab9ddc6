//! Readers that fail at each read in turn, and writers at each write.
use crate::scripts::ALL_SESSIONS;
use lock_script::Fault;
use scenario::run_script;
use std::alloc::Global;
use std::io::{self, ErrorKind, Read, Write};
use std::process::Abort;
use std::sync::Wait;
use std::test::Fail;

/// A reader of a text that gives a fixed number of bytes a read, and fails after a number of reads.
#[derive(Drop)]
struct BrokenReader<'a> {
    text: &'a [u8],
    most: usize,
    reads: usize,
}

impl Read for BrokenReader<'_> {
    fn read(&mut self, buf: &mut [u8]) -> io::Result<usize> {
        if self.reads == 0 {
            return Err(io::Error::from(ErrorKind::Other));
        }
        self.reads -= 1;
        let most = self.most.min(buf.len());
        self.text.read(&mut buf[..most])
    }
}

/// A writer that takes a byte a write, and fails after a number of writes.
#[derive(Drop)]
struct BrokenWriter<'a> {
    taken: &'a mut Vec<u8>,
    writes: usize,
}

impl Write for BrokenWriter<'_> {
    fn write(&mut self, buf: &[u8]) -> io::Result<usize> {
        let Some(first) = buf.first() else {
            return Ok(0);
        };
        if self.writes == 0 || self.taken.push(*first).is_err() {
            return Err(io::Error::from(ErrorKind::BrokenPipe));
        }
        self.writes -= 1;
        Ok(1)
    }

    fn flush(&mut self) -> io::Result<()> {
        Ok(())
    }
}

/// The lines of a script in which sessions wait, and what each prints.
static LINES: [(&str, &str); 9] = [
    ("session a 5\n", "a: session 0 database 5\n"),
    ("session b 5\n", "b: session 1 database 5\n"),
    ("# both ask for one relation\n", ""),
    ("try a 5/16384 AccessShareLock\n", "a: granted\n"),
    ("lock b 5/16384 AccessExclusiveLock\n", "b: waits\n"),
    (
        "list a\n",
        "table a 5/16384 AccessShareLock granted\n\
         table b 5/16384 AccessExclusiveLock awaited\nrows 2\n",
    ),
    ("commit a\n", "a: committed\nb: granted after waiting\n"),
    ("lock a 5/16384 AccessShareLock\n", "a: waits\n"),
    ("cancel b a\n", "b: asked a\na: cancelled\n"),
];

/// The lines of the script that end within `bytes` bytes, and what they print.
fn lines_within(alloc: Global, bytes: usize) -> Result<(String, String), Fail> {
    let mut script = String::new(alloc);
    let mut printed = String::new(alloc);
    for row in &LINES {
        let (line, answer) = *row;
        if script.len().saturating_add(line.len()) > bytes {
            return Ok((script, printed));
        }
        script.push_str(line)?;
        printed.push_str(answer)?;
    }
    Ok((script, printed))
}

/// Checks that a script that ended as `ended` was to end as `expected`, and that its `output` is `printed`.
fn expect_end(
    rt: &impl Abort,
    ended: Result<(), Fault>,
    expected: Result<(), Fault>,
    output: &[u8],
    printed: &[u8],
) {
    assert_eq!(rt; ended, expected);
    assert_eq!(rt; output, printed);
}

/// Runs `script` with a reader that fails after `reads` reads of at most `most` bytes. The lines that come
/// before the failure are run.
fn expect_read_failed(
    rt: &(impl Abort + AllocGlobal + Wait),
    script: &str,
    most: usize,
    reads: usize,
) -> Result<(), Fail> {
    let alloc = rt.alloc();
    let reader = BrokenReader {
        text: script.as_bytes(),
        most,
        reads,
    };
    let mut output = Vec::new(alloc);
    let (_, ended) = run_script(rt, reader, &mut output, ALL_SESSIONS);
    let (_, printed) = lines_within(alloc, most.saturating_mul(reads))?;
    expect_end(
        rt,
        ended,
        Err(Fault::ReadFailed),
        output.as_slice(),
        printed.as_bytes(),
    );
    Ok(())
}

/// Runs `script` with a writer that fails after `writes` writes. The writer has taken what was printed of
/// `printed` before the failure.
fn expect_written(
    rt: &(impl Abort + AllocGlobal + Wait),
    script: &str,
    printed: &[u8],
    writes: usize,
) {
    let mut taken = Vec::new(rt.alloc());
    let writer = BrokenWriter {
        taken: &mut taken,
        writes,
    };
    let (_, ended) = run_script(rt, script.as_bytes(), writer, ALL_SESSIONS);
    let expected = if writes < printed.len() {
        Err(Fault::WriteFailed)
    } else {
        Ok(())
    };
    let most = writes.min(printed.len());
    expect_end(rt, ended, expected, taken.as_slice(), &printed[..most]);
}

#[test]
fn a_read_that_fails_ends_a_script(rt: HostRuntime) -> Result<(), Fail> {
    let (script, _) = lines_within(rt.alloc(), usize::MAX)?;
    for most in [1, 7, 4096] {
        // The last read is the one that finds the end.
        for reads in 0..=script.len().div_ceil(most.max(1)) {
            expect_read_failed(&rt, script.as_str(), most, reads)?;
        }
    }
    Ok(())
}

#[test]
fn a_write_that_fails_ends_a_script(rt: HostRuntime) -> Result<(), Fail> {
    let (script, printed) = lines_within(rt.alloc(), usize::MAX)?;
    for writes in 0..=printed.len() {
        expect_written(&rt, script.as_str(), printed.as_bytes(), writes);
    }
    Ok(())
}

/// A writer that counts how often it is flushed.
#[derive(Drop)]
struct Flushed<'a> {
    flushes: &'a mut u32,
}

impl Write for Flushed<'_> {
    fn write(&mut self, buf: &[u8]) -> io::Result<usize> {
        Ok(buf.len())
    }

    fn flush(&mut self) -> io::Result<()> {
        *self.flushes = self.flushes.saturating_add(1);
        Ok(())
    }
}

/// Scripts, how many bytes a read gives, and how often the output is flushed.
static FLUSHES: [(&str, usize, u32); 5] = [
    // each line by itself
    ("session a 5\nhash 5/1\nlist a\n", 1, 3),
    // all lines are at hand: before the last one, and behind it
    ("session a 5\nhash 5/1\nlist a\n", 4096, 2),
    // a comment prints nothing, and the lines before it are passed on
    ("session a 5\nhash 5/1\nlist a\n#\n", 4096, 1),
    // so are those before a bad line, and before one that is no line of a script
    ("session a 5\nlist a\nlist b\nlist a\n", 4096, 1),
    ("session a 5\nlist a\nlist \x07\n", 4096, 2),
];

#[test]
fn passes_on_what_is_printed_before_it_waits(rt: HostRuntime) -> Result<(), Fail> {
    for (script, most, expected) in &FLUSHES {
        let mut flushes = 0;
        let reader = BrokenReader {
            text: script.as_bytes(),
            most: *most,
            reads: 4096,
        };
        let writer = Flushed {
            flushes: &mut flushes,
        };
        let _ = run_script(&rt, reader, writer, ALL_SESSIONS);
        assert_eq!(rt; flushes, *expected, "{script:?}");
    }
    Ok(())
}
