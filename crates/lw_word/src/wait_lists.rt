ghost use Rattle.std.specs.Prelude.{◌≡◌, ◌<◌, filter, take};
ghost use Rattle.std.specs.Vec.{vec_capacity};
ghost use Rattle.lw_word.specs.WaitList.{wants_to_share, without_sharers};
ghost use Rattle.lw_word.specs.declared.wait_lists.TheConstants.{MOST_TAKEN_OFF};

use crate::LwMode;
use arrayvec::ArrayVec;
use modes_core::SessionId;
use std::alloc::{AllocError, Global};
use std::marker::Model;

/// A session that waits for a lightweight lock, and how it wants to take the lock (`lwWaitMode` of a `PGPROC`
/// in proc.h).
#[derive(Clone, Copy, Default, PartialEq, Eq)]
pub struct LwWaiter {
    /// The session that waits for the lightweight lock.
    pub session: SessionId,
    /// How the session that waits wants to take the lightweight lock.
    pub mode: LwMode,
}

/// How many sessions a wakeup takes off a wait list at most. The session that wakes them has them in a list
/// of its own, whose length is bounded so, however many sessions there are.
pub const MOST_TAKEN_OFF: usize = 64;

/// The sessions whom a wakeup took off a wait list, in the order of the list. Each session is in a list once
/// at most.
pub type TakenOff = ArrayVec<LwWaiter, MOST_TAKEN_OFF>;

/// What a wakeup of a lightweight lock's wait list leads to: whom it takes off, and whether release-ok is to
/// be set.
#[derive(Drop)]
pub struct Wakeup {
    /// The sessions to wake, which were taken off the wait list.
    pub taken: TakenOff,
    /// Whether release-ok is to be set after the wakeup: so where there was nobody to take off. Otherwise a
    /// session that was taken off sets release-ok as it goes on.
    pub release_ok: bool,
}

/// The wait list of a lightweight lock, first come first (`waiters` of an `LWLock` in lwlock.h). Contracts
/// see the waiters, and how many sessions there can be: session numbers are those below that. A session is in
/// the list once at most, and there is room for all sessions, so that nothing but `new` takes memory.
#[derive(Drop)]
pub struct WaitList {
    waiters: Vec<LwWaiter>,
    room: u16,
}

impl Model for WaitList {
    ghost use Rattle.std.specs.Prelude.{◌≤◌};
    ghost use Rattle.std.specs.Vec.{vec_capacity};
    ghost use Rattle.lw_word.specs.WaitList.{Waiting, EachStandsOnce};

    ghost Value = { Waiting };

    ghost view = { λ list. record { waiters = list.waiters.items; room = list.room } };

    ghost invariant = { λ list. EachStandsOnce list.room list.waiters.items
        × (list.room ≤ vec_capacity list.waiters) };
}

impl WaitList {
    ghost use Rattle.std.specs.Prelude.{◌≡◌, ◌<◌, ◌↔◌, ◌∷◌, ◌++◌, [], false, IsTrue, IfOk};
    ghost use Rattle.lw_word.specs.WaitList.{EachStandsOnce, stands_in, without, taken_off, left_waiting};

    /// A wait list in which nobody waits, with room for the sessions whose numbers are below `sessions`. An
    /// error where `alloc` has no memory for the list.
    pub fn new(alloc: Global, sessions: u16) -> Result<Self, AllocError>
        ensures { IfOk result (λ list. list ≡ record { waiters = []; room = sessions }) }
    {
        Ok(WaitList {
            waiters: Vec::with_capacity(alloc, sessions as usize)?,
            room: sessions,
        })
    }

    /// The waiters of the list, first come first.
    pub fn waiters(&self) -> &[LwWaiter]
        ensures value { result.now ≡ self.now.waiters }
        ensures once { EachStandsOnce self.now.room result.now }
    {
        self.waiters.as_slice()
    }

    /// How many sessions the list has room for: those whose numbers are below this.
    pub fn room(&self) -> u16
        ensures { result ≡ self.now.room }
    {
        self.room
    }

    /// Whether nobody waits in the list.
    pub fn is_empty(&self) -> bool
        ensures { IsTrue result ↔ (self.now.waiters ≡ []) }
    {
        self.waiters.is_empty()
    }

    /// Whether `session` is in the list.
    pub fn has(&self, session: SessionId) -> bool
        ensures { result ≡ stands_in session self.now.waiters }
    {
        self.waiters
            .as_slice()
            .iter()
            .any(|waiter| session.number() == waiter.session.number())
    }

    /// Puts `session`, whose number is below `room`, at the end of the list, as a waiter that wants to take
    /// the lock in `mode` (`LWLockQueueSelf` in lwlock.c).
    pub fn join(&mut self, session: SessionId, mode: LwMode)
        requires within { session < self.old.room }
        requires absent { stands_in session self.old.waiters ≡ false }
        ensures { self.new ≡ record self.old {
          waiters = self.old.waiters ++ record { session = session; mode = mode } ∷ [];
        } }
    {
        self.waiters.push_reserved(LwWaiter { session, mode });
    }

    /// Takes `session` out of the list, and answers whether `session` was in the list (`LWLockDequeueSelf` in
    /// lwlock.c).
    pub fn leave(&mut self, session: SessionId) -> bool
        ensures found { result ≡ stands_in session self.old.waiters }
        ensures left { self.new ≡ record self.old { waiters = without session self.old.waiters } }
    {
        let found = self.has(session);
        let number = session.number();
        self.waiters
            .retain(|waiter| number != waiter.session.number());
        found
    }

    /// Takes off the list those whom a wakeup lets go (`LWLockWakeup` in lwlock.c): where the first waiter
    /// wants to share the lock, those who want to share it, `MOST_TAKEN_OFF` of them at most, else the first
    /// one alone. The others stay, in their order, and go with a later wakeup.
    pub fn wake_split(&mut self) -> Wakeup
        ensures taken { result.taken.items ≡ taken_off self.old.waiters }
        ensures left { self.new ≡ record self.old { waiters = left_waiting self.old.waiters } }
        ensures release_ok { IsTrue result.release_ok ↔ (self.old.waiters ≡ []) }
    {
        if self.waiters.is_empty() {
            return Wakeup {
                taken: ArrayVec::new(),
                release_ok: true,
            };
        }
        let first = self.waiters[0];
        let taken = if first.mode.is_shared() {
            take_sharers_off(&mut self.waiters)
        } else {
            let mut alone = ArrayVec::new();
            alone.push(self.waiters.remove(0));
            alone
        };
        Wakeup {
            taken,
            release_ok: false,
        }
    }
}

/// Takes the first `MOST_TAKEN_OFF` of those who want to share the lock out of `waiters`. The others stay, in
/// their order.
fn take_sharers_off(waiters: &mut Vec<LwWaiter>) -> TakenOff
    ensures taken { result.items ≡ take MOST_TAKEN_OFF (filter wants_to_share waiters.old.items) }
    ensures left { waiters.new.items ≡ without_sharers MOST_TAKEN_OFF waiters.old.items }
    ensures capacity { vec_capacity waiters.new ≡ vec_capacity waiters.old }
{
    let mut taken = TakenOff::new();
    let mut kept = 0;
    for index in 0..waiters.len() {
        let waiter = waiters[index];
        if waiter.mode.is_shared() && taken.len() < MOST_TAKEN_OFF {
            taken.push(waiter);
        } else {
            waiters[kept] = waiter;
            kept += 1;
        }
    }
    waiters.truncate(kept);
    taken
}
