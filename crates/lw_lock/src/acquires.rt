//! Acquiring a lightweight lock (`LWLockAcquire` in lwlock.c).
//!
//! An uncontended acquire is one attempt. A session that loses it attempts the lock a few times more, with
//! pauses, then joins the lock's list and attempts the lock again. Where it sees somebody in the way there,
//! it sleeps until it was taken off the list and told so; then it begins again. The attempt after the
//! queueing is what no wake-up is lost by: a session that puts the lock from then on sees has-waiters, and
//! one that put it before is no more in the way. Nobody only tries again and again: `attempt` asks that fewer
//! than `MOST_LOST` attempts were lost since the session last joined a list.

ghost use Rattle.std.specs.Prelude.{ℕ, ◌+◌, ◌<◌, IfSome, IfNone};
ghost use Rattle.lw_lock.specs.Since.{IsSince, StaysSince, TurnsInto, Gains};

use crate::guarded::{Acquirable, Guarded, Lost};
use crate::pauses::{MOST_LOST, SPINS, pause_before};
use std::sync::Wait;

/// Acquires `lock` for the session in `state`, and answers what the lock guards (`LWLockAcquire` in
/// lwlock.c). The session waits in the lock's wait list while others are in the way.
#[inline(always)]
pub fn acquire<S, G, L: Acquirable<S, G>, R: Wait>(rt: &R, state: &mut S, lock: &L) -> G
    requires { L.on_way lock.now 0 state.old state.old }
    ensures { L.won lock.now state.old state.new result }
{
    match lock.attempt(state) {
        Ok(got) => got,
        Err(Lost::Held) => lock.acquire_held(rt, state),
        Err(Lost::Changed) => lock.acquire_changed(rt, state),
    }
}

/// Acquires `lock` for the session in `state`, which lost an exchange and has seen nobody in the way.
pub fn acquire_changed<S, G, L: Guarded<S, G>, R: Wait>(rt: &R, state: &mut S, lock: &L) -> G
    requires { IsSince (L.on_way lock.now 0) state.old }
    ensures { Gains (L.on_way lock.now 0) (L.won lock.now) state.old state.new result }
{
    match attempt_or_see(rt, state, lock) {
        Some(got) => got,
        None => acquire_held(rt, state, lock),
    }
}

/// Acquires `lock` for the session in `state` after a lost attempt: attempts and sleeps in turns until the
/// lock is won (the loop of `LWLockAcquire` in lwlock.c).
pub fn acquire_held<S, G, L: Guarded<S, G>, R: Wait>(rt: &R, state: &mut S, lock: &L) -> G
    requires { IsSince (L.on_way lock.now 1) state.old }
    ensures { Gains (L.on_way lock.now 1) (L.won lock.now) state.old state.new result }
{
    for _ in rt.forever() {
        if let Some(got) = acquire_in_turn(rt, state, lock) {
            return got;
        }
    }
    unreachable!()
}

// A few attempts, and then one turn in the list.
fn acquire_in_turn<S, G, L: Guarded<S, G>, R: Wait>(rt: &R, state: &mut S, lock: &L) -> Option<G>
    requires { IsSince (L.on_way lock.now 1) state.old }
    ensures won { IfSome result (Gains (L.on_way lock.now 1) (L.won lock.now) state.old state.new) }
    ensures lost { IfNone result (StaysSince (L.on_way lock.now 1) state.old state.new) }
{
    match attempt_a_while(rt, state, lock) {
        Some(got) => Some(got),
        None => acquire_or_sleep(rt, state, lock),
    }
}

// Attempts until it has the lock or sees somebody in the way: an exchange that is lost to a flag that changed
// says nothing (the loop of `LWLockAttemptLock` in lwlock.c).
fn attempt_or_see<S, G, L: Guarded<S, G>, R: Wait>(rt: &R, state: &mut S, lock: &L) -> Option<G>
    requires { (lost : ℕ) × (lost < MOST_LOST) × IsSince (L.on_way lock.now lost) state.old }
    ensures won { IfSome result (λ got. (lost : ℕ) →
        Gains (L.on_way lock.now lost) (L.won lock.now) state.old state.new got) }
    ensures lost { IfNone result ((lost : ℕ) →
        TurnsInto (L.on_way lock.now lost) (L.on_way lock.now (lost + 1)) state.old state.new) }
{
    for _ in rt.forever() {
        match lock.attempt(state) {
            Ok(got) => return Some(got),
            Err(Lost::Held) => return None,
            Err(Lost::Changed) => {}
        }
    }
    unreachable!()
}

// Attempts in the list until it has the lock or sees somebody in the way: nobody may go to sleep on an
// exchange that was lost to a flag.
fn attempt_again_or_see<S, G, L: Guarded<S, G>, R: Wait>(
    rt: &R,
    state: &mut S,
    lock: &L,
) -> Option<G>
    requires { IsSince (L.queued lock.now) state.old }
    ensures won { IfSome result (Gains (L.queued lock.now) (L.won_queued lock.now) state.old state.new) }
    ensures lost { IfNone result (TurnsInto (L.queued lock.now) (L.saw_held lock.now) state.old state.new) }
{
    for _ in rt.forever() {
        match lock.attempt_again(state) {
            Ok(got) => return Some(got),
            Err(Lost::Held) => return None,
            Err(Lost::Changed) => {}
        }
    }
    unreachable!()
}

// A few attempts, with pauses before each.
fn attempt_a_while<S, G, L: Guarded<S, G>, R: Wait>(rt: &R, state: &mut S, lock: &L) -> Option<G>
    requires { IsSince (L.on_way lock.now 1) state.old }
    ensures won { IfSome result (Gains (L.on_way lock.now 1) (L.won lock.now) state.old state.new) }
    ensures lost { IfNone result
        (TurnsInto (L.on_way lock.now 1) (L.on_way lock.now MOST_LOST) state.old state.new) }
{
    for attempt in 0..SPINS {
        pause_before(attempt);
        if let Some(got) = attempt_or_see(rt, state, lock) {
            return Some(got);
        }
    }
    None
}

// Joins the list and attempts the lock again. A winner leaves the list; who lost sleeps until it is told, and
// lets releases wake others again before it goes on.
fn acquire_or_sleep<S, G, L: Guarded<S, G>, R: Wait>(rt: &R, state: &mut S, lock: &L) -> Option<G>
    requires { IsSince (L.on_way lock.now MOST_LOST) state.old }
    ensures won { IfSome result (Gains (L.on_way lock.now MOST_LOST) (L.won lock.now) state.old state.new) }
    ensures lost { IfNone result
        (TurnsInto (L.on_way lock.now MOST_LOST) (L.on_way lock.now 1) state.old state.new) }
{
    lock.queue_self(rt, state);
    match attempt_again_or_see(rt, state, lock) {
        Some(got) => {
            lock.dequeue_self(rt, state);
            Some(got)
        }
        None => {
            lock.sleep_until_told(rt, state);
            None
        }
    }
}
