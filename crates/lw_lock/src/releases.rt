//! Releasing a lightweight lock (`LWLockRelease` in lwlock.c).

use crate::held::Held;
use lw_word::must_wake_after;

/// Releases `lock` for the session in `state`, and gives `content` back with it (`LWLockRelease` in
/// lwlock.c). One fetch-and-subtract puts the lock; where the number that it found says so, the call wakes
/// those who wait.
#[inline]
pub fn release<S, C, L: Held<S, C>>(state: &mut S, lock: &L, content: C)
    requires { L.may_put lock.now state.old content }
    ensures { L.released lock.now state.old state.new content }
{
    let found = lock.put(state, content);
    if must_wake_after(found, lock.mode()) {
        lock.wake_waiters(state);
    }
}
