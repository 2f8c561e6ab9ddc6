//! The bytes of a script, one after another.
ghost use Rattle.std.specs.Prelude.{◌≡◌, ℕ, ◌<◌, ◌≤◌, ◌+◌, length, [], ◌∷◌, true, OnOk, OnErr, IfOk, IfErr, Ok, None};
ghost use Rattle.std.specs.Option.{option_to_list};
ghost use Rattle.std.specs.Io.KnownBytes.{Consumes, Keeps, IsAtEnd, ReadConsumes};
ghost use Rattle.lock_script.specs.declared.faults.Fault.TheVariants.{ReadFailed};
ghost use Rattle.lock_script.specs.Bytes.{most_reads};

use crate::faults::Fault;
use std::io::{ErrorKind, Read};
use std::marker::Model;

/// How many reads are made of a script at most. The longest script that is allowed needs fewer, even where
/// each read gives one byte.
const MOST_READS: u32 = 1_100_000_000;

/// How many bytes a read of the script asks for.
const CAPACITY: usize = 4096;

/// The bytes that a reader gives, through a buffer. Contracts see the bytes that are left, where the reader's
/// bytes are known, how many of those left are buffered, and how often the reader was read from.
#[derive(Drop)]
pub struct ByteSource<R: Read> {
    reader: R,
    buffer: [u8; CAPACITY],
    start: usize,
    end: usize,
    reads: u32,
}

impl<R: Read> Model for ByteSource<R> {
    ghost use Rattle.std.specs.Prelude.{◌≤◌, ◌-◌, slice_range};
    ghost use Rattle.std.specs.Io.KnownBytes.{prepend_known};
    ghost use Rattle.lock_script.specs.Bytes.{ByteView, most_reads};

    ghost Value = { ByteView };

    ghost view = { λ s. record {
      left = prepend_known (slice_range s.buffer s.start s.end) (R.remaining s.reader);
      buffered = s.end - s.start;
      reads = s.reads;
    } };

    ghost invariant = { λ s. (s.start ≤ s.end) × (s.end ≤ 4096) × (s.reads ≤ most_reads) };
}

impl<R: Read> ByteSource<R> {
    /// The bytes of `reader`, of which none is read yet.
    pub fn new(reader: R) -> Self
        ensures left { result.left ≡ R.remaining reader }
        ensures none_made { result.reads ≡ 0 }
        ensures nothing_buffered { result.buffered ≡ 0 }
    {
        ByteSource {
            reader,
            buffer: [0; CAPACITY],
            start: 0,
            end: 0,
            reads: 0,
        }
    }

    /// The next byte, or `None` at the end of the input. The reader is read from only where nothing is
    /// buffered.
    pub fn next_byte(&mut self) -> Result<Option<u8>, Fault>
        ensures bytes { IfOk result (λ byte. Consumes self.old.left self.new.left (option_to_list byte)) }
        ensures end { result ≡ Ok None → IsAtEnd self.new.left }
        ensures read { self.old.buffered ≡ 0 → OnOk result (self.old.reads < self.new.reads) }
        ensures not_read { 0 < self.old.buffered → self.new.reads ≡ self.old.reads }
        ensures taken { 0 < self.old.buffered → self.new.buffered + 1 ≡ self.old.buffered }
        ensures reads { self.old.reads ≤ self.new.reads }
        ensures bound { self.new.reads ≤ most_reads }
        ensures err { IfErr result (λ fault. fault ≡ ReadFailed) }
    {
        if self.start == self.end {
            let read = read_some(&mut self.reader, &mut self.buffer, &mut self.reads)?;
            self.start = 0;
            self.end = read;
            if read == 0 {
                return Ok(None);
            }
        }
        let byte = self.buffer[self.start];
        self.start += 1;
        Ok(Some(byte))
    }

    /// Whether a line of text of at most `most` bytes is buffered, with its line feed.
    pub fn has_line(&self, most: usize) -> bool {
        let buffered = &self.buffer[self.start..self.end];
        match buffered
            .iter()
            .position(|byte| !matches!(*byte, b'\t' | b' '..=b'~'))
        {
            Some(place) => place <= most && buffered[place] == b'\n',
            None => false,
        }
    }
}

/// Reads from `reader` into `buffer` once, with another attempt where a signal interrupts the read, and
/// answers how many bytes were read. Counts each attempt in `reads`.
fn read_some<R: Read>(reader: &mut R, buffer: &mut [u8], reads: &mut u32) -> Result<usize, Fault>
    requires { reads.old ≤ most_reads }
    ensures counted { OnOk result (reads.old < reads.new) }
    ensures within { (reads.old ≤ reads.new) × (reads.new ≤ most_reads) }
    ensures bound { IfOk result (λ read. read ≤ length buffer.new) }
    ensures bytes { ReadConsumes (R.remaining reader.old) (R.remaining reader.new) result buffer.new }
    ensures err { IfErr result (λ fault. fault ≡ ReadFailed) }
{
    for made in *reads..MOST_READS {
        *reads = made + 1;
        match reader.read(buffer) {
            Ok(read) => return Ok(read),
            Err(error) => {
                if error.kind() != ErrorKind::Interrupted {
                    return Err(Fault::ReadFailed);
                }
            }
        }
    }
    Err(Fault::ReadFailed)
}
