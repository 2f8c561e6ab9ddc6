//! A writer that fails.
use std::io::{self, ErrorKind, Write};

/// A writer that takes a number of lines, and a flush only if it is to.
#[derive(Drop)]
pub struct Pipe {
    pub lines: u32,
    pub flushes: bool,
}

impl Write for Pipe {
    fn write(&mut self, buf: &[u8]) -> io::Result<usize> {
        if self.lines == 0 {
            return Err(io::Error::from(ErrorKind::BrokenPipe));
        }
        if buf.contains(&b'\n') {
            self.lines -= 1;
        }
        Ok(buf.len())
    }

    fn flush(&mut self) -> io::Result<()> {
        if self.flushes {
            Ok(())
        } else {
            Err(io::Error::from(ErrorKind::BrokenPipe))
        }
    }
}
