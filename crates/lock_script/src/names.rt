//! The names of a script: those under which sessions were opened, and those of objects.
ghost use Rattle.std.specs.Prelude.{◌≡◌, ◌<◌, ◌≤◌, [], ◌∷◌, ◌++◌, length, set, slice_get};
ghost use Rattle.modes_core.specs.Sessions.{usual_sessions};

use crate::objects::ObjectNames;
use arrayvec::{ArrayString, ArrayVec};
use modes_core::SessionId;
use std::alloc::Global;
use std::marker::Model;

/// How many sessions a script may have open at a time at most.
pub(crate) const USUAL_SESSIONS: usize = modes_core::USUAL_SESSIONS as usize;

/// The name of a session, of up to 16 bytes.
pub type Name = ArrayString<16>;

/// The names of the sessions that were opened, by the sessions' numbers. Where a number was given out again,
/// the name is that of the last session with the number.
#[derive(Drop)]
pub struct SessionNames {
    issued: ArrayVec<Name, USUAL_SESSIONS>,
}

impl Model for SessionNames {
    ghost use Rattle.std.specs.Prelude.{List};
    ghost use Rattle.arrayvec.specs.declared.array_string.ArrayString.{ArrayString};

    ghost Value = { List (ArrayString 16) };

    ghost view = { λ names. names.issued.items };
}

impl SessionNames {
    /// An empty list of names: no session was opened.
    pub fn new() -> Self
        ensures { result ≡ [] }
    {
        SessionNames {
            issued: ArrayVec::new(),
        }
    }

    /// The name under which `session` was opened, if it was opened.
    pub fn name(&self, session: SessionId) -> Option<Name>
        ensures { result ≡ slice_get self.now session }
    {
        self.issued
            .as_slice()
            .get(usize::from(session.number()))
            .copied()
    }

    /// Keeps `name` as the name of the session with the next number. The name of a closed session is kept,
    /// too.
    pub fn push(&mut self, name: Name)
        requires { length self.old < usual_sessions }
        ensures { self.new ≡ self.old ++ name ∷ [] }
    {
        self.issued.push(name);
    }

    /// Keeps `name` as the name of `session`, which was opened just now. The number of `session` is the next
    /// one, or was given out again: then the name of the earlier session with the number is lost.
    pub fn put(&mut self, session: SessionId, name: Name)
        requires next_or_again { session ≤ length self.old }
        requires few { session < usual_sessions }
        ensures next { session ≡ length self.old → self.new ≡ self.old ++ name ∷ [] }
        ensures again { session < length self.old → self.new ≡ set self.old session name }
    {
        let number = usize::from(session.number());
        if number < self.issued.len() {
            self.issued.as_mut_slice()[number] = name;
        } else {
            self.issued.push(name);
        }
    }
}

/// The names that the answers to a script use: those of the sessions that were opened, and those that the
/// script gave to objects.
#[derive(Drop)]
pub struct Names {
    pub sessions: SessionNames,
    pub objects: ObjectNames,
}

impl Names {
    /// Names of no session and no object. Later names of objects take memory by `alloc`.
    pub fn new(alloc: Global) -> Self
        ensures sessions { result.sessions ≡ [] }
        ensures objects { result.objects ≡ [] }
    {
        Names {
            sessions: SessionNames::new(),
            objects: ObjectNames::new(alloc),
        }
    }
}
