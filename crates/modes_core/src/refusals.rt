ghost use Rattle.std.specs.Prelude.{◌≡◌};
ghost use Rattle.modes_core.specs.Refusal.{refusal_number};

use crate::{Mode, SessionId};
use std::fmt;
use thiserror::Error;

/// What another session does with the mode that is in the way.
#[derive(Clone, Copy, Debug, PartialEq, Eq)]
pub enum How {
    /// The session in the way holds the conflicting mode.
    Held,
    /// The session in the way waits for the conflicting mode, ahead in the queue.
    Awaited,
}

impl fmt::Display for How {
    ghost use Rattle.std.specs.Prelude.{Some};
    ghost use Rattle.modes_core.specs.Refusal.{verb_of};

    ghost output = { λ how. Some (verb_of how) };

    fn fmt<W: fmt::Write>(&self, f: &mut fmt::Formatter<W>) -> fmt::Result {
        match self {
            How::Held => write!(f, "holds"),
            How::Awaited => write!(f, "awaits"),
        }
    }
}

/// Why a call was refused. After each refusal the caller's holds and counts are as before.
#[derive(Clone, Copy, Debug, PartialEq, Eq, Drop, Error)]
pub enum Refusal {
    /// A conditional request met a conflicting hold or wait of another session.
    #[error("conflict: session {session} {how} {mode}")]
    Conflict {
        /// The session whose hold or wait is in the way of the refused request.
        session: SessionId,
        /// The mode of the session in the way, which conflicts with the mode that the refused request asked
        /// for.
        mode: Mode,
        /// Whether the session in the way holds the conflicting mode or waits for it.
        how: How,
    },
    /// A growth of the memory was refused.
    #[error("out of memory")]
    NoMemory,
    /// The session's local lock table has as many entries as the configuration allows.
    #[error("the local lock table is full")]
    LocalFull,
    /// The resource owner (transaction or session) has acquired the lock in the mode as often as can be
    /// counted.
    #[error("the count of this lock is full")]
    CountFull,
    /// Waiting would close a cycle with `session` (`DeadLockReport` after the simple test of `ProcSleep` in
    /// proc.c).
    #[error("simple deadlock with session {session}")]
    SimpleDeadlock {
        /// The session that waits, or would wait, for the session whose request is refused.
        session: SessionId,
    },
    /// The session's wait was cancelled before it was granted.
    #[error("the wait was cancelled")]
    Cancelled,
    /// The resource owner (transaction or session) doesn't hold the lock in the mode.
    #[error("you don't own this lock")]
    NotHeld,
    /// Another session had the lightweight lock of the session's fast-path slots at that moment.
    #[error("the fast-path lock is busy")]
    Busy,
    /// All fast-path slots of the relation's group are in use.
    #[error("the fast-path slots are full")]
    SlotsFull,
    /// The strong lock counter of the object's index is not 0.
    #[error("a strong lock is counted")]
    StrongCounted,
    /// The mode on this object can't be taken by the fast path.
    #[error("not eligible for the fast path")]
    NotEligible,
    /// All session numbers are issued.
    #[error("no more sessions")]
    NoMoreSessions,
    /// A number of the configuration is out of its range.
    #[error("the configuration is out of range")]
    BadConfig,
    /// The session's transactions are nested as deep as they can be.
    #[error("transactions are nested too deep")]
    TooDeep,
    /// The session's transaction has no transaction nested in it.
    #[error("there is no nested transaction")]
    NoNested,
}

impl Refusal {
    /// The refusal's number, as scripts print it: 1 to 13, 15 or 16. A bad line of a script is 14.
    pub fn number(self) -> u8
        ensures { result ≡ refusal_number self }
    {
        match self {
            Refusal::Conflict { .. } => 1,
            Refusal::NoMemory => 2,
            Refusal::LocalFull => 3,
            Refusal::CountFull => 4,
            Refusal::SimpleDeadlock { .. } => 5,
            Refusal::Cancelled => 6,
            Refusal::NotHeld => 7,
            Refusal::Busy => 8,
            Refusal::SlotsFull => 9,
            Refusal::StrongCounted => 10,
            Refusal::NotEligible => 11,
            Refusal::NoMoreSessions => 12,
            Refusal::BadConfig => 13,
            Refusal::TooDeep => 15,
            Refusal::NoNested => 16,
        }
    }
}
