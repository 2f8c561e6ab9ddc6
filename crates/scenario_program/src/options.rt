//! How a script is run, and what the program's status says of it.

use scenario::{Style, Turns};

/// How a run goes, what it shows, and what it fails for.
#[derive(Clone, Copy, Debug, PartialEq, Eq)]
pub struct RunOptions {
    pub style: Style,
    pub turns: Turns,
    /// Whether the run lists at its end who waited, for which lock, and who was in the way.
    pub summary: bool,
    pub fail_on: FailOn,
    /// Whether a bad line has a hint behind it, which word of it is bad and what may be meant. For somebody
    /// at a terminal it has one in any case.
    pub hints: bool,
}

impl RunOptions {
    /// Whether the run is to list who waited though one picture of the script takes the place of all that is
    /// printed.
    pub fn summarizes_a_drawing(self) -> bool {
        match self.style.graph {
            Some(drawing) => self.summary && drawing.is_of_all_lines(),
            None => false,
        }
    }
}

/// The names of what a run may fail for, as the command line has them.
pub static FAILURES: [&str; 3] = ["waits", "refused", "stuck"];

/// What a run fails for, though its script has no bad line.
#[derive(Clone, Copy, Debug, PartialEq, Eq)]
pub struct FailOn {
    /// The run fails where a session waits.
    pub waits: bool,
    /// The run fails where a call is refused.
    pub refused: bool,
    /// The run fails where a session is left waiting at the end of the script.
    pub stuck: bool,
}

impl FailOn {
    /// What a run fails for where `names` are given, each of which is one of `FAILURES`.
    pub fn named(names: &[&str]) -> Self {
        FailOn {
            waits: names.contains(&FAILURES[0]),
            refused: names.contains(&FAILURES[1]),
            stuck: names.contains(&FAILURES[2]),
        }
    }
}
