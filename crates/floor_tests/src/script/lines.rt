//! The lines of a reader that gives few bytes a read, is interrupted, or fails.

use lock_script::{Defect, Fault, LineReader};
use std::io::{self, ErrorKind, Read};

/// A reader of a text that gives a fixed number of bytes a read, is interrupted before each read, and fails
/// at the end of the text if `fails` says so.
#[derive(Drop)]
struct Text<'a> {
    left: &'a [u8],
    most: usize,
    fails: bool,
    interrupted: bool,
}

impl Read for Text<'_> {
    fn read(&mut self, buf: &mut [u8]) -> io::Result<usize> {
        self.interrupted = !self.interrupted;
        if self.interrupted {
            return Err(io::Error::from(ErrorKind::Interrupted));
        }
        if self.left.is_empty() && self.fails {
            return Err(io::Error::from(ErrorKind::Other));
        }
        let most = self.most.min(buf.len());
        self.left.read(&mut buf[..most])
    }
}

/// A text, whether reading fails at its end, its lines, and the fault after the lines, if any.
type Lines = (&'static str, bool, &'static [&'static str], Option<Fault>);

const LINES: [Lines; 6] = [
    ("", false, &[], None),
    ("one\ntwo", false, &["one", "two"], None),
    (
        "\n \tone \r\n\r\r\n",
        false,
        &["", " \tone "],
        Some(Fault::BadLine {
            line: 3,
            what: Defect::NotAsciiText,
        }),
    ),
    (
        "one\ntw\u{f6}\nthree\n",
        false,
        &["one"],
        Some(Fault::BadLine {
            line: 2,
            what: Defect::NotAsciiText,
        }),
    ),
    ("one\n", true, &["one"], Some(Fault::ReadFailed)),
    ("one\ntw", true, &["one"], Some(Fault::ReadFailed)),
];

/// Whether the next line of `reader` is `expected`.
fn is_next<R: Read>(reader: &mut LineReader<R>, expected: &str) -> bool {
    match reader.next_line() {
        Ok(Some(line)) => line.as_str() == expected,
        _ => false,
    }
}

/// Whether `reader` has no line left, and ends with `fault`, or well where `fault` is `None`.
fn is_over<R: Read>(reader: &mut LineReader<R>, fault: Option<Fault>) -> bool {
    match reader.next_line() {
        Ok(None) => fault.is_none(),
        Ok(Some(_)) => false,
        Err(its) => fault == Some(its),
    }
}

/// Whether the lines of `reader` are `lines`, and `fault`, if any, comes after them.
fn are_read<R: Read>(reader: &mut LineReader<R>, lines: &[&str], fault: Option<Fault>) -> bool {
    for line in lines {
        if !is_next(reader, line) {
            return false;
        }
    }
    is_over(reader, fault)
}

/// Whether the text of `row` is read as `row` says, by a reader that gives up to `most` bytes at a time.
fn is_read(row: Lines, most: usize) -> bool {
    let (text, fails, lines, fault) = row;
    let mut reader = LineReader::new(Text {
        left: text.as_bytes(),
        most,
        fails,
        interrupted: false,
    });
    are_read(&mut reader, lines, fault)
}

#[test]
fn a_text_is_read_line_by_line(rt: HostRuntime) {
    for row in LINES {
        for most in [1, 3, 4096] {
            assert!(rt; is_read(row, most), "{:?} by {most}", row.0);
        }
    }
}
