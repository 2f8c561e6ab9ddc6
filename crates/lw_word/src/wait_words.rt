//! What sessions' own words say: the wait word of a session's wait in the queue of an object, and the sleep
//! word of its wait in the list of a lightweight lock.

ghost use Rattle.std.specs.Prelude.{◌≡◌, ◌%◌, ◌/◌, ◌==◌};

/// What bits 0 to 1 of a session's wait word say of its wait in the queue of an object (`ProcWaitStatus` in
/// proc.h).
#[derive(Clone, Copy)]
pub enum WaitState {
    /// The session doesn't wait in the queue of an object.
    NotWaiting = 0,
    /// The session waits in the queue of an object (`PROC_WAIT_STATUS_WAITING`).
    Waiting = 1,
    /// The session's wait in the queue of an object was granted (`PROC_WAIT_STATUS_OK`), and the session has
    /// not seen that yet.
    Granted = 2,
}

/// Bit 2 of a wait word, which is set where the session was asked to cancel its wait (`QueryCancelPending` in
/// globals.c).
pub const CANCEL_ASKED: u64 = 4;

/// What a session's sleep word says of its wait in the list of a lightweight lock (`LWLockWaitState` in
/// lwlock.h).
#[derive(Clone, Copy)]
pub enum SleepState {
    /// The session is in no wait list, and no wakeup of it is under way (`LW_WS_NOT_WAITING`).
    NotWaiting = 0,
    /// The session is in the wait list of a lightweight lock (`LW_WS_WAITING`).
    Waiting = 1,
    /// The session was taken off a wait list, and is yet to be woken (`LW_WS_PENDING_WAKEUP`).
    PendingWakeup = 2,
}

/// Bits 0 to 1 of the wait word `word`: the number of its `WaitState` (`waitStatus` in proc.h).
pub fn wait_state(word: u64) -> u64
    ensures { result ≡ word % 4 }
{
    word % 4
}

/// Whether bit 2 of the wait word `word` is set: its session was asked to cancel its wait
/// (`QueryCancelPending` in globals.c).
pub fn is_asked(word: u64) -> bool
    ensures { result ≡ (word / 4 % 2 == 1) }
{
    word / 4 % 2 == 1
}
