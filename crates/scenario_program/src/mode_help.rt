//! What the help of a shell says of lock modes.

use crate::statements::push_statements_with;
use modes_core::{Mode, conflicts};
use std::alloc::AllocError;

/// Adds to `text` a table of the modes that conflict, by their numbers.
pub fn push_modes(text: &mut String) -> Result<(), AllocError> {
    text.push_str("  X: no two sessions hold both  1 2 3 4 5 6 7 8\n")?;
    for mode in &Mode::ALL {
        write!(text, "  {} {:<26}", mode.number(), mode.name())?;
        for other in &Mode::ALL {
            let mark = if conflicts(*mode).has(*other) {
                " X"
            } else {
                "  "
            };
            text.push_str(mark)?;
        }
        text.push('\n')?;
    }
    Ok(())
}

/// Adds to `text` what the mode that `words` name conflicts with, and the SQL commands that take this mode;
/// nothing where `words` name no mode.
pub fn push_mode(text: &mut String, words: &str) -> Result<(), AllocError> {
    for mode in &Mode::ALL {
        if is_name_of(*mode, words) {
            write!(text, "  {mode} conflicts with\n")?;
            push_conflicts(text, *mode)?;
            push_statements_with(text, *mode)?;
        }
    }
    Ok(())
}

/// The mode that `words` name, as `access exclusive` of SQL does, if they name one.
pub fn mode_called(words: &str) -> Option<Mode> {
    for mode in &Mode::ALL {
        if is_name_of(*mode, words) {
            return Some(*mode);
        }
    }
    None
}

/// Adds to `text` a line for each mode that `mode` conflicts with.
fn push_conflicts(text: &mut String, mode: Mode) -> Result<(), AllocError> {
    for other in &Mode::ALL {
        if conflicts(mode).has(*other) {
            write!(text, "    {other}\n")?;
        }
    }
    Ok(())
}

/// Whether `words` are the name of `mode` in a script or in SQL, as `access share` is, in letters of either
/// case.
fn is_name_of(mode: Mode, words: &str) -> bool {
    let mut left = mode.name().as_bytes();
    for byte in words.bytes() {
        if byte == b' ' {
            continue;
        }
        match left.split_first() {
            Some((first, rest)) if first.eq_ignore_ascii_case(&byte) => left = rest,
            _ => return false,
        }
    }
    left.is_empty() || left == b"Lock".as_slice()
}
