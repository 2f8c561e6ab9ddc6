use std::hint::spin_loop;

/// How many attempts to take a lightweight lock a session makes before it joins the wait list, with pauses
/// before each (PostgreSQL spins so for spin locks, `perform_spin_delay` in s_lock.c). A sleep with its
/// wake-up takes two threads 5 to 8 microseconds, and all pauses of these attempts some 10: so a session
/// sleeps where a lock is held for long, and seldom where others only take turns.
pub(crate) const SPINS: u32 = 13;

/// How many attempts at lightweight locks a session may lose before it joins a wait list: the first one, or
/// the one that it made in the list, and then one after each pause.
pub const MOST_LOST: u32 = SPINS + 1;

/// How often the number of pauses before an attempt doubles, from one to 256, which take 1.5 microseconds.
const DOUBLINGS: u32 = 8;

/// Pauses before the attempt numbered `attempt`, counted from 0, to take a lightweight lock: once before the
/// first, and twice as often before each further one, up to 256 times.
pub(crate) fn pause_before(attempt: u32) {
    for _ in 0..1u32 << attempt.min(DOUBLINGS) {
        spin_loop();
    }
}
