//! The lines of a script.
ghost use Rattle.std.specs.Prelude.{◌≡◌, ◌+◌, ◌≤◌, ℕ, [], ◌∷◌, length, IfOk, IfErr, OnOk, IfSome, IfNone, MatchOption, Some, None, Err, true, false, if◌then◌else◌, is_some};
ghost use Rattle.std.specs.List.{list_all};
ghost use Rattle.std.specs.Io.KnownBytes.{prepend_known};
ghost use Rattle.lock_script.specs.declared.faults.Fault.TheVariants.{ReadFailed};
ghost use Rattle.lock_script.specs.Lines.{is_text_byte, after_line, text_of, reading_of, Reads, CutsLine, HasLongLine};

use crate::bytes::ByteSource;
use crate::faults::{Defect, Fault};
use arrayvec::ArrayVec;
use std::io::Read;
use std::marker::Model;
use std::str;

/// How many lines a script has at most.
const MOST_LINES: u32 = 1_000_000;

/// How many bytes a line of a script has at most, without its line feed.
const MOST_BYTES: usize = 1024;

/// The text of a line of a script: tabs and printable ASCII characters. Contracts see the bytes.
#[derive(Drop)]
pub struct Line {
    bytes: ArrayVec<u8, MOST_BYTES>,
}

impl Model for Line {
    ghost use Rattle.std.specs.Prelude.{◌≡◌, ℕ, List, true};
    ghost use Rattle.std.specs.List.{list_all};
    ghost use Rattle.lock_script.specs.Lines.{is_text_byte};

    ghost Value = { List ℕ };

    ghost view = { λ line. line.bytes.items };

    ghost invariant = { λ line. list_all is_text_byte line.bytes.items ≡ true };
}

impl Line {
    /// The text of the line.
    pub fn as_str(&self) -> &str
        ensures { result.now ≡ self.now }
    {
        match str::from_utf8(self.bytes.as_slice()) {
            Ok(text) => text,
            Err(_) => unreachable!(),
        }
    }
}

/// Reads the lines of a script from a reader, one after another.
#[derive(Drop)]
pub struct LineReader<R: Read> {
    /// The bytes of the script that are left to read.
    pub source: ByteSource<R>,
    /// How many lines of the script were read.
    pub number: u32,
    ghost counted: { number ≤ 1000000 },
}

impl<R: Read> LineReader<R> {
    /// A line reader over `reader`, with no line read yet.
    pub fn new(reader: R) -> Self
        ensures unread { result.source.left ≡ R.remaining reader }
        ensures none_read { result.number ≡ 0 }
    {
        LineReader {
            source: ByteSource::new(reader),
            number: 0,
        }
    }

    /// The next line of the script, or `None` at the end of the input. What comes after the last line feed is
    /// a line only if it is not empty. A line that isn't ASCII text is read to its end and counted; after
    /// another error nothing more is to be read.
    pub fn next_line(&mut self) -> Result<Option<Line>, Fault>
        ensures reads { IfSome self.old.source.left (λ unread. Reads result self.old.number
            (reading_of self.old.number unread)) }
        ensures rest { OnOk result (IfSome self.old.source.left (λ unread.
            self.new.source.left ≡ Some (after_line unread))) }
        ensures number { IfOk result (λ line.
            self.new.number ≡ self.old.number + (if is_some line then 1 else 0)) }
        ensures counted { result ≡ Err (Fault.BadLine (self.old.number + 1) Defect.NotAsciiText) →
            self.new.number ≡ self.old.number + 1 }
        ensures passed_over { result ≡ Err (Fault.BadLine (self.old.number + 1) Defect.NotAsciiText) →
            IfSome self.old.source.left (λ unread. self.new.source.left ≡ Some (after_line unread)) }
    {
        let Some(first) = self.source.next_byte()? else {
            return Ok(None);
        };
        if self.number >= MOST_LINES {
            return Err(bad_line(self.number, Defect::TooManyLines));
        }
        let Some(bytes) = gather(&mut self.source, first)? else {
            return Err(bad_line(self.number, Defect::LineTooLong));
        };
        let before = self.number;
        self.number += 1;
        match text(bytes) {
            Some(line) => Ok(Some(line)),
            None => Err(bad_line(before, Defect::NotAsciiText)),
        }
    }

    /// Whether the next line can be had without a read from the reader: it is buffered with its line feed, it
    /// is text, and it is neither too long nor one line too many.
    pub fn has_line(&self) -> bool {
        self.number < MOST_LINES && self.source.has_line(MOST_BYTES)
    }
}

/// The fault `what` of the line that comes after `before` lines.
fn bad_line(before: u32, what: Defect) -> Fault
    requires { before ≤ 1000000 }
    ensures { result ≡ Fault.BadLine (before + 1) what }
{
    Fault::BadLine {
        line: before + 1,
        what,
    }
}

/// The line of `source` that begins with the byte `first`, without its line feed, or `None` where the line is
/// too long. `first` was read from `source` already.
fn gather<R: Read>(
    source: &mut ByteSource<R>,
    first: u8,
) -> Result<Option<ArrayVec<u8, MOST_BYTES>>, Fault>
    ensures line { IfOk result (λ found. IfSome found (λ line.
        CutsLine (prepend_known (first ∷ []) source.old.left) source.new.left line.items)) }
    ensures short { IfOk result (λ found. IfSome found (λ line. length line.items ≤ 1024)) }
    ensures too_long { IfOk result (λ found. IfNone found
        (HasLongLine (prepend_known (first ∷ []) source.old.left))) }
    ensures err { IfErr result (λ fault. fault ≡ ReadFailed) }
{
    let mut line = ArrayVec::new();
    let mut next = Some(first);
    for at in 0..MOST_BYTES {
        match next {
            None => return Ok(Some(line)),
            Some(b'\n') => return Ok(Some(line)),
            Some(byte) => line.push(byte),
        }
        next = source.next_byte()?;
    }
    match next {
        None => Ok(Some(line)),
        Some(b'\n') => Ok(Some(line)),
        Some(_) => Ok(None),
    }
}

/// The line whose text is `bytes` without a carriage return at the end, or `None` where one of these bytes is
/// neither a tab nor a printable ASCII character.
fn text(mut bytes: ArrayVec<u8, MOST_BYTES>) -> Option<Line>
    ensures { MatchOption result (list_all is_text_byte (text_of bytes.items) ≡ false)
        (λ line. (line ≡ text_of bytes.items) × (list_all is_text_byte (text_of bytes.items) ≡ true)) }
{
    drop_carriage_return(&mut bytes);
    if is_text(bytes.as_slice()) {
        Some(Line { bytes })
    } else {
        None
    }
}

/// Drops a carriage return at the end of `bytes`.
fn drop_carriage_return(bytes: &mut ArrayVec<u8, MOST_BYTES>)
    ensures { bytes.new.items ≡ text_of bytes.old.items }
{
    if let Some(b'\r') = bytes.as_slice().last() {
        bytes.pop();
    }
}

/// Whether all of `bytes` are tabs and printable ASCII characters.
fn is_text(bytes: &[u8]) -> bool
    ensures { result ≡ list_all is_text_byte bytes.now }
{
    bytes
        .iter()
        .all(|byte| matches!(*byte, b'\t' | b' '..=b'~'))
}
