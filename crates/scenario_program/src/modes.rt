//! The conflict table, as the program prints it.

use lock_script::Fault;
use modes_core::{Mode, conflicts};
use std::io::{self, Write};

/// Prints on `output` a line for each lock mode: its number, its name, and the modes that it conflicts with,
/// as a mask in hexadecimal, whose bit `1 << number` is the mode of that number (`LockConflicts` in lock.c).
pub fn print_modes<W: Write + Drop>(output: W) -> Result<(), Fault> {
    write_modes(output).map_err(|_| Fault::WriteFailed)
}

/// Writes the conflict table to `output`. The error is the writer's own.
fn write_modes<W: Write + Drop>(mut output: W) -> io::Result<()> {
    for mode in Mode::ALL {
        let (number, mask) = (mode.number(), conflicts(mode).mask());
        writeln!(output, "{number} {mode} {mask:x}")?;
    }
    output.flush()
}
