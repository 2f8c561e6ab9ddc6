//! What a lightweight lock is to the session that comes for it.

ghost use Rattle.std.specs.Prelude.{ℕ, ◌+◌, ◌<◌, ◌≡◌, Err, IfOk};
ghost use Rattle.lw_lock.specs.Since.{IsSince, StaysSince, TurnsInto, Gains, IsSinceWith, Carries};

use crate::pauses::MOST_LOST;
use std::sync::Wait;

/// Why an attempt to take a lightweight lock was lost.
#[derive(Clone, Copy)]
pub enum Lost {
    /// The lock's word showed that somebody is in the way.
    Held,
    /// The word changed between the look and the exchange, by a flag or by another session: nothing is known.
    Changed,
}

/// A lightweight lock with what it guards, as a session comes for it. `S` is the session's state, and `G`
/// what the session gets in hand with the lock.
///
/// Each ghost member says of two states of a session how far it has come with the lock from the first state
/// to the second. Each contract says from which member its call leads to which.
pub trait Guarded<S, G> {
    // The session has got nothing, and is in no list. So many attempts it has lost since it last joined a
    // list, or got a lock.
    ghost on_way: { Self → ℕ → S → S → Type 0 };

    // It has joined the lock's list, and not attempted the lock since.
    ghost queued: { Self → S → S → Type 0 };

    // It has joined the list, and saw somebody in the way then.
    ghost saw_held: { Self → S → S → Type 0 };

    // It has joined the list, and got the lock then, with this.
    ghost won_queued: { Self → S → S → G → Type 0 };

    // It has got the lock, with this, and is in no list.
    ghost won: { Self → S → S → G → Type 0 };

    /// Makes one attempt to take the lock for the session in `state` (`LWLockAttemptLock` in lwlock.c). A
    /// session that has lost `MOST_LOST` attempts joins the list before it makes another one.
    fn attempt(&self, state: &mut S) -> Result<G, Lost>
        requires { (lost : ℕ) × (lost < MOST_LOST) × IsSince (on_way self.now lost) state.old }
        ensures won { IfOk result (λ got. (lost : ℕ) →
            Gains (on_way self.now lost) (won self.now) state.old state.new got) }
        ensures held { result ≡ Err Lost.Held → (lost : ℕ) →
            TurnsInto (on_way self.now lost) (on_way self.now (lost + 1)) state.old state.new }
        ensures changed { result ≡ Err Lost.Changed → (lost : ℕ) →
            StaysSince (on_way self.now lost) state.old state.new };

    /// Puts the session in `state` at the end of the lock's wait list (`LWLockQueueSelf` in lwlock.c).
    fn queue_self<R: Wait>(&self, rt: &R, state: &mut S)
        requires { (lost : ℕ) × IsSince (on_way self.now lost) state.old }
        ensures { (lost : ℕ) → TurnsInto (on_way self.now lost) (queued self.now) state.old state.new };

    /// Makes one attempt to take the lock, as `attempt` does, for the session in `state`, which has joined
    /// the lock's wait list: where it sees somebody in the way, that session sees has-waiters as it puts the
    /// lock.
    fn attempt_again(&self, state: &mut S) -> Result<G, Lost>
        requires { IsSince (queued self.now) state.old }
        ensures won { IfOk result (Gains (queued self.now) (won_queued self.now) state.old state.new) }
        ensures held { result ≡ Err Lost.Held →
            TurnsInto (queued self.now) (saw_held self.now) state.old state.new }
        ensures changed { result ≡ Err Lost.Changed → StaysSince (queued self.now) state.old state.new };

    /// Takes the session in `state`, which has the lock in hand, off the lock's wait list
    /// (`LWLockDequeueSelf` in lwlock.c).
    fn dequeue_self<R: Wait>(&self, rt: &R, state: &mut S)
        requires { IsSinceWith (won_queued self.now) state.old }
        ensures { Carries (won_queued self.now) (won self.now) state.old state.new };

    /// Has the session in `state` sleep until another one has taken it off the lock's wait list and woken it,
    /// and lets releases wake others again (the sleep on the semaphore in `LWLockAcquire` of lwlock.c, and
    /// `LW_FLAG_RELEASE_OK` after it).
    fn sleep_until_told<R: Wait>(&self, rt: &R, state: &mut S)
        requires { IsSince (saw_held self.now) state.old }
        ensures { TurnsInto (saw_held self.now) (on_way self.now 1) state.old state.new };
}

/// A guarded lightweight lock with functions of its own for what follows a lost attempt. These take no
/// reference to the lock, so that `acquire` need not keep the lock in memory where the first attempt is won.
pub trait Acquirable<S, G>: Guarded<S, G> {
    /// Acquires the lock for the session in `state` after a lost attempt: a call of the function
    /// `acquire_held` in a function that is not inlined.
    fn acquire_held<R: Wait>(&self, rt: &R, state: &mut S) -> G
        requires { IsSince (Self.on_way self.now 1) state.old }
        ensures { Gains (Self.on_way self.now 1) (Self.won self.now) state.old state.new result };

    /// Acquires the lock for the session in `state`, which lost an exchange and has seen nobody in the way: a
    /// call of the function `acquire_changed` in a function that is not inlined.
    fn acquire_changed<R: Wait>(&self, rt: &R, state: &mut S) -> G
        requires { IsSince (Self.on_way self.now 0) state.old }
        ensures { Gains (Self.on_way self.now 0) (Self.won self.now) state.old state.new result };
}
