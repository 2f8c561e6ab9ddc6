//! What ends the orders of a script early.

use lock_script::{Defect, Fault, Name};
use std::alloc::AllocError;

/// A line of a script that is bad.
#[derive(Drop)]
pub struct BadLine {
    /// The line's number in the script, from 1.
    pub number: u32,
    /// What is wrong with the line.
    pub what: Defect,
    pub text: String,
    /// The names of the sessions that were open before the line.
    pub open: Vec<Name>,
}

/// A line that opens a session, which is refused since all that may be opened were.
#[derive(Clone, Copy)]
pub struct RefusedSession {
    /// The line's number in the script, from 1.
    pub number: u32,
    /// How many sessions the script opens.
    pub wanted: u32,
}

/// What ends the orders of a script early.
#[derive(Drop)]
pub enum OrdersFault {
    /// A line of the script is bad.
    Line(BadLine),
    /// A session of the script is not opened.
    Session(RefusedSession),
    /// Another fault, or a line that can't be read.
    Other(Fault),
}

impl From<Fault> for OrdersFault {
    fn from(fault: Fault) -> Self {
        OrdersFault::Other(fault)
    }
}

impl From<AllocError> for OrdersFault {
    fn from(_: AllocError) -> Self {
        OrdersFault::Other(Fault::NoMemory)
    }
}
