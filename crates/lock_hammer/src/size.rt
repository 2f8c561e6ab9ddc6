//! How long a hammer is.

/// How many sessions a hammer has, and how long they play.
#[derive(Clone, Copy, Debug, PartialEq, Eq)]
pub struct Hammer {
    /// How many sessions the hammer has, each in a thread of its own.
    pub sessions: u32,
    /// How many rounds each session of the hammer plays.
    pub rounds: u32,
}
