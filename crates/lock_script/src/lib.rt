//! The language of scripts of lock calls: the lines of a reader, their words, the open sessions and the
//! objects by their names, and the command that a line is. It knows nothing of a lock manager: what a session
//! is, is left to the program that runs scripts.
#![tactic(auto)]

mod bytes;
mod command;
mod commands;
mod faults;
mod kept;
mod lines;
mod names;
mod naming;
mod objects;
mod sessions;
mod words;

pub use bytes::ByteSource;
pub use command::{Command, Target, parse};
pub use commands::{CommandRow, WordKind, command_row, command_rows};
pub use faults::{Defect, Fault};
pub use kept::{KeptLine, KeptLines, KeptQueue};
pub use lines::{Line, LineReader};
pub use names::{Name, Names, SessionNames};
pub use objects::{NamedObject, ObjectName, ObjectNames, parse_object, parse_object_name};
pub use sessions::{ByName, Caller, Named, OpenSessions, Opened, Place};
pub use words::{
    parse_name, parse_number, parse_owner, parse_strong_index, parse_tag, split_words,
};
