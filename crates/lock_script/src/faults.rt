//! Why a script ends before its last line.
ghost use Rattle.std.specs.Prelude.{◌≡◌, Some};
ghost use Rattle.lock_script.specs.Fault.{defect_text, fault_text, status_of};

use std::fmt;

/// What is wrong with a line of a script. The kinds are in the order of the checks.
#[derive(Clone, Copy, Debug, PartialEq, Eq, Drop)]
pub enum Defect {
    TooManyLines,
    LineTooLong,
    NotAsciiText,
    UnknownCommand,
    WrongNumberOfWords,
    BadName,
    SessionExists,
    NameExists,
    NoSuchSession,
    SessionWaits,
    BadNumber,
    BadObject,
    ObjectNamed,
    BadMode,
    BadOwner,
}

impl Defect {
    /// The text of the defect.
    pub fn text(self) -> &'static str
        ensures { result.now ≡ defect_text self }
    {
        match self {
            Defect::TooManyLines => "too many lines",
            Defect::LineTooLong => "line too long",
            Defect::NotAsciiText => "not ASCII text",
            Defect::UnknownCommand => "unknown command",
            Defect::WrongNumberOfWords => "wrong number of words",
            Defect::BadName => "bad name",
            Defect::SessionExists => "session exists",
            Defect::NameExists => "name exists",
            Defect::NoSuchSession => "no such session",
            Defect::SessionWaits => "session waits",
            Defect::BadNumber => "bad number",
            Defect::BadObject => "bad object",
            Defect::ObjectNamed => "object has a name",
            Defect::BadMode => "bad mode",
            Defect::BadOwner => "bad owner",
        }
    }
}

impl fmt::Display for Defect {
    ghost output = { λ what. Some (defect_text what) };

    fn fmt<W: fmt::Write>(&self, f: &mut fmt::Formatter<W>) -> fmt::Result {
        write!(f, "{}", self.text())
    }
}

/// What ends a script early.
#[derive(Clone, Copy, Debug, PartialEq, Eq, Drop)]
pub enum Fault {
    /// The line numbered `line`, counted from 1, is not in the language of scripts: `what` is wrong with it.
    BadLine { line: u32, what: Defect },
    /// The reader failed, or gave too few bytes at a time.
    ReadFailed,
    /// The writer of the answers failed.
    WriteFailed,
    /// Memory ran out, for the program's own lists or in the making of the lock manager.
    NoMemory,
    /// A gate did not let a worker pass.
    GateHeld,
}

impl fmt::Display for Fault {
    ghost output = { λ fault. Some (fault_text fault) };

    fn fmt<W: fmt::Write>(&self, f: &mut fmt::Formatter<W>) -> fmt::Result {
        match self {
            Fault::BadLine { line, what } => write!(f, "line {line}: {what}"),
            Fault::ReadFailed => write!(f, "read failed"),
            Fault::WriteFailed => write!(f, "write failed"),
            Fault::NoMemory => write!(f, "no memory"),
            Fault::GateHeld => write!(f, "gate held"),
        }
    }
}

impl Fault {
    /// The status with which a program ends after the fault: 3 for a bad line, 1 for any other.
    pub fn status(self) -> u8
        ensures { result ≡ status_of self }
    {
        match self {
            Fault::BadLine { .. } => 3,
            _ => 1,
        }
    }
}
