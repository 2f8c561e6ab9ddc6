//! The open sessions of a script, by their names: those that wait, and those that don't.
ghost use Rattle.std.specs.Prelude.{◌≡◌, ℕ, ◌<◌, ◌≤◌, [], ◌∷◌, length, insert, remove, slice_index_or, IfOk, IfSome, IfNone, MatchOption};
ghost use Rattle.std.specs.Borrow.{sem};
ghost use Rattle.std.specs.List.{HoldsAt};
ghost use Rattle.lock_script.specs.Names.{IsByName, IsCalled, IsFree, NotAfter, PutsIn};
ghost use Rattle.modes_core.specs.Sessions.{usual_sessions};

use crate::names::{Name, USUAL_SESSIONS};
use std::alloc::{AllocError, Global};
use std::marker::Model;

/// A session with the name by which it goes.
#[derive(Drop)]
pub struct Named<S> {
    pub name: Name,
    pub session: S,
}

/// Sessions in the byte order of their names. Contracts see the sessions as a list. There is room for as many
/// sessions as a script may have open, so that only the making of the list takes memory.
#[derive(Drop)]
pub struct ByName<S> {
    sessions: Vec<Named<S>>,
}

impl<S> Model for ByName<S> {
    ghost use Rattle.std.specs.Prelude.{◌≤◌, List, vec_capacity};
    ghost use Rattle.lock_script.specs.declared.sessions.Named.{Named};
    ghost use Rattle.lock_script.specs.Names.{IsByName};
    ghost use Rattle.modes_core.specs.Sessions.{usual_sessions};

    ghost Value = { List (Named S) };

    ghost view = { λ those. those.sessions.items };

    ghost invariant = { λ those. IsByName those.sessions.items × (usual_sessions ≤ vec_capacity those.sessions) };
}

impl<S> ByName<S> {
    ghost use Rattle.lock_script.specs.declared.sessions.Named.{Named};
    ghost use Rattle.lock_script.specs.Lending.{LendsSession};

    /// A list of no session, which takes memory by `alloc`. Refused only where memory ran out.
    pub fn new(alloc: Global) -> Result<Self, AllocError>
        ensures { IfOk result (λ made. made ≡ []) }
    {
        let sessions = Vec::with_capacity(alloc, USUAL_SESSIONS)?;
        Ok(ByName { sessions })
    }

    /// How many sessions the list has.
    pub fn len(&self) -> usize
        ensures { result ≡ length self.now }
    {
        self.sessions.len()
    }

    /// The place of the session named `name`, if it is in the list.
    pub fn place_called(&self, name: &Name) -> Option<usize>
        ensures called { IfSome result (IsCalled self.now name.now.bytes) }
        ensures free { IfNone result (IsFree self.now name.now.bytes) }
    {
        for (place, other) in self.sessions.iter().enumerate() {
            if other.name.as_str() == name.as_str() {
                return Some(place);
            }
        }
        None
    }

    /// The session at `place`, with its name.
    pub fn at(&self, place: usize) -> &Named<S>
        requires { place < length self.now }
        ensures { HoldsAt (λ one. result.now ≡ one) self.now place }
    {
        &self.sessions[place]
    }

    /// The session at `place`, for a call that changes it. The session's name and the other sessions don't
    /// change.
    pub fn session_mut(&mut self, place: usize) -> &mut S
        requires { place < length self.old }
        ensures* writes_back { sem 𝓛 (LendsSession S.row self.entry place result) }
        ensures value { HoldsAt (λ one. result.now ≡ one.session) self.old place }
    {
        &mut self.sessions[place].session
    }

    /// Puts `session`, named `name`, into the list at the place that `name` has in the order of the names.
    pub fn put(&mut self, name: Name, session: S)
        requires { length self.old < usual_sessions }
        ensures { PutsIn self.old (record { name = name; session = session }) self.new }
    {
        let place = self.place_of(&name);
        self.put_at(place, name, session);
    }

    /// Puts `session`, named `name`, into the list at `place`, where `name` keeps the order of the names.
    pub fn put_at(&mut self, place: usize, name: Name, session: S)
        requires room { length self.old < usual_sessions }
        requires within { place ≤ length self.old }
        requires in_order { IsByName (insert self.old place (record { name = name; session = session })) }
        ensures { self.new ≡ insert self.old place (record { name = name; session = session }) }
    {
        // There is room, so it takes no memory and is not refused.
        match self.sessions.insert(place, Named { name, session }) {
            Ok(()) => {}
            Err(_) => unreachable!(),
        }
    }

    /// How many sessions have a name that does not come after `name`.
    fn place_of(&self, name: &Name) -> usize
        ensures within { result ≤ length self.now }
        ensures in_order { IsByName self.now }
        ensures before { (k : ℕ) (d : Named S) → k < result →
            NotAfter (slice_index_or self.now k d).name.bytes name.now.bytes }
        ensures after { (k : ℕ) (d : Named S) → result ≤ k → k < length self.now →
            NotAfter name.now.bytes (slice_index_or self.now k d).name.bytes }
    {
        for (place, other) in self.sessions.iter().enumerate() {
            if *name < other.name {
                return place;
            }
        }
        self.sessions.len()
    }

    /// Takes the session at `place`, with its name, out of the list.
    pub fn take(&mut self, place: usize) -> Named<S>
        requires { place < length self.old }
        ensures taken { HoldsAt (λ one. result ≡ one) self.old place }
        ensures left { self.new ≡ remove self.old place }
        ensures in_order { IsByName self.old }
    {
        self.sessions.remove(place)
    }

    /// Takes the session whose name comes first, with its name, out of the list, if there is any.
    pub fn take_first(&mut self) -> Option<Named<S>>
        ensures first { MatchOption result (self.old ≡ []) (λ first. self.old ≡ first ∷ self.new) }
        ensures none { IfNone result (self.new ≡ []) }
        ensures in_order { IsByName self.old }
    {
        if self.sessions.is_empty() {
            return None;
        }
        Some(self.sessions.remove(0))
    }

    /// Ends the list, which has no session any more.
    pub fn finish(self)
        requires { self ≡ [] }
    {
        let ByName { sessions } = self;
        sessions.destroy_empty();
    }
}

/// The open sessions of a script: those that don't wait, and those that wait.
#[derive(Drop)]
pub struct OpenSessions<S, W> {
    pub resting: ByName<S>,
    pub waiting: ByName<W>,
}

/// The place of an open session.
#[derive(Clone, Copy, Debug, PartialEq, Eq)]
pub enum Place {
    /// At this place in the list of the sessions that don't wait.
    Resting(usize),
    /// At this place in the list of the sessions that wait.
    Waiting(usize),
}

/// An open session that doesn't wait: its name, and its place among the sessions that don't wait.
#[derive(Clone, Copy, Debug, PartialEq, Eq)]
pub struct Caller {
    pub name: Name,
    pub place: usize,
}

/// An open session, which may wait: its name, and its place.
#[derive(Clone, Copy, PartialEq, Eq)]
pub struct Opened {
    pub name: Name,
    pub place: Place,
}

impl<S, W> OpenSessions<S, W> {
    ghost use Rattle.lock_script.specs.Sessions.{IsAt, IsUnknown};

    /// No open session. Takes memory by `alloc` for all that may be opened, and is refused only where memory
    /// ran out.
    pub fn new(alloc: Global) -> Result<Self, AllocError>
        ensures resting { IfOk result (λ sessions. sessions.resting ≡ []) }
        ensures waiting { IfOk result (λ sessions. sessions.waiting ≡ []) }
    {
        let resting = ByName::new(alloc)?;
        match ByName::new(alloc) {
            Ok(waiting) => Ok(OpenSessions { resting, waiting }),
            Err(refused) => {
                resting.finish();
                Err(refused)
            }
        }
    }

    /// Ends the lists of open sessions, in which no session is left.
    pub fn finish(self)
        requires resting { self.resting ≡ [] }
        requires waiting { self.waiting ≡ [] }
    {
        let OpenSessions { resting, waiting } = self;
        resting.finish();
        waiting.finish();
    }

    /// The place of the open session named `name`, if there is one.
    pub fn place_called(&self, name: &Name) -> Option<Place>
        ensures called { IfSome result (IsAt self.now name.now.bytes) }
        ensures free { IfNone result (IsUnknown self.now name.now.bytes) }
    {
        if let Some(place) = self.resting.place_called(name) {
            return Some(Place::Resting(place));
        }
        match self.waiting.place_called(name) {
            Some(place) => Some(Place::Waiting(place)),
            None => None,
        }
    }
}
