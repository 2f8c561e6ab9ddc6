ghost use Rattle.std.specs.Prelude.{◌≡◌, ◌<◌, ◌↔◌, ℕ, IsSome, IfSome, Some};
ghost use Rattle.modes_core.specs.declared.sessions.TheConstants.{MOST_SESSIONS};
ghost use Rattle.modes_core.specs.Sessions.{most_sessions};

use std::fmt;
use std::marker::Model;

/// How many sessions a lock manager has at most: session numbers are those below this (`MaxBackends` in
/// globals.c, of a server as large as can be).
pub const MOST_SESSIONS: u16 = 1024;

/// How many sessions a lock manager has at most that is not made for a server, and how many sessions a script
/// has.
pub const USUAL_SESSIONS: u16 = 64;

/// The number of a session, 0 to 1,023, given in the order of opening. Contracts see the number. The
/// default, 0, is what unused places of bounded lists have.
#[derive(Clone, Copy, Debug, Default, PartialEq, Eq, PartialOrd, Ord, Hash)]
pub struct SessionId {
    number: u16,
}

impl Model for SessionId {
    ghost Value = { ℕ };

    ghost view = { λ id. id.number };

    ghost invariant = { λ id. id.number < most_sessions };

    ghost inverse = { λ number. record { number = number } };
}

impl SessionId {
    /// The session numbered `number`, or `None` where that is not below `MOST_SESSIONS`.
    pub fn new(number: u16) -> Option<Self>
        ensures valid { IsSome result ↔ (number < most_sessions) }
        ensures value { IfSome result (λ id. id ≡ number) }
    {
        if number < MOST_SESSIONS {
            Some(SessionId { number })
        } else {
            None
        }
    }

    /// The session's number, as a number below `MOST_SESSIONS`.
    pub fn number(self) -> u16
        ensures value { result ≡ self }
        ensures within { result < most_sessions }
    {
        self.number
    }
}

impl fmt::Display for SessionId {
    fn fmt<W: fmt::Write>(&self, f: &mut fmt::Formatter<W>) -> fmt::Result {
        write!(f, "{}", self.number())
    }
}

/// Whose a lock is (`ResourceOwner` in resowner.h): the transaction's, where the lock ends with the
/// transaction, or the session's, where the lock outlives a commit.
#[derive(Clone, Copy, Debug, PartialEq, Eq)]
pub enum Owner {
    /// The session: the lock stays at the end of a transaction.
    Session,
    /// The transaction: the lock goes when the transaction ends.
    Transaction,
}
