//! Answers that carry a session, taken apart: the session, and what the call is answered.

ghost use Rattle.std.specs.Prelude.{◌≡◌};
ghost use Rattle.lock_manager.specs.WaitingSessions.{parts_started, parts_polled};
ghost use Rattle.lock_manager.specs.WaitingSessions.{answer_locked, session_locked};
ghost use Rattle.lock_manager.specs.WaitingSessions.{answer_waited, session_waited, acquired_after};
ghost use Rattle.lock_manager.specs.WaitingSessions.{was_granted, session_cancelled, acquired_despite};

use crate::waiting_sessions::{Cancelled, Locked, Polled, Started, Waited};
use local_locks::Acquired;
use modes_core::Refusal;

impl<S, W> Started<S, W> {
    /// The session, with what its acquire is answered, or, as an error, the session that waits.
    pub fn into_parts(self) -> Result<(S, Result<Acquired, Refusal>), W>
        ensures parts { result ≡ parts_started self }
    {
        match self {
            Started::Granted(session) => Ok((session, Ok(Acquired::Granted))),
            Started::AlreadyHeld(session) => Ok((session, Ok(Acquired::AlreadyHeld))),
            Started::Queued(waiting) => Err(waiting),
            Started::Refused(session, refusal) => Ok((session, Err(refusal))),
        }
    }
}

impl<S, W> Polled<S, W> {
    /// The session whose wait was granted, or, as an error, the session that waits still, with whether it was
    /// asked to cancel.
    pub fn into_parts(self) -> Result<S, (W, bool)>
        ensures parts { result ≡ parts_polled self }
    {
        match self {
            Polled::Granted(session) => Ok(session),
            Polled::Still(waiting) => Err((waiting, false)),
            Polled::CancelAsked(waiting) => Err((waiting, true)),
        }
    }
}

impl<S> Locked<S> {
    /// The session, with what its acquire is answered.
    pub fn into_parts(self) -> (S, Result<Acquired, Refusal>)
        ensures session { result.0 ≡ session_locked self }
        ensures answer { result.1 ≡ answer_locked self }
    {
        match self {
            Locked::Granted(session) => (session, Ok(Acquired::Granted)),
            Locked::AlreadyHeld(session) => (session, Ok(Acquired::AlreadyHeld)),
            Locked::Refused(session, refusal) => (session, Err(refusal)),
        }
    }
}

impl<S> Waited<S> {
    /// The session, with what the acquire for which it waited is answered.
    pub fn into_parts(self) -> (S, Result<Acquired, Refusal>)
        ensures session { result.0 ≡ session_waited self }
        ensures answer { result.1 ≡ acquired_after (answer_waited self) }
    {
        match self {
            Waited::Granted(session) => (session, Ok(Acquired::Granted)),
            Waited::Refused(session, refusal) => (session, Err(refusal)),
        }
    }
}

impl<S> Cancelled<S> {
    /// The session, with what the acquire whose wait it cancelled is answered: `Cancelled`, or granted where
    /// the grant was first.
    pub fn into_parts(self) -> (S, Result<Acquired, Refusal>)
        ensures session { result.0 ≡ session_cancelled self }
        ensures answer { result.1 ≡ acquired_despite (was_granted self) }
    {
        match self {
            Cancelled::Removed(session) => (session, Err(Refusal::Cancelled)),
            Cancelled::WasGranted(session) => (session, Ok(Acquired::Granted)),
        }
    }
}
