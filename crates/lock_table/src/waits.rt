ghost use Rattle.modes_core.specs.ModeSet.{set_has};

use modes_core::{Mode, ModeSet, SessionId};

/// A wait in the queue of an object (`PGPROC` with its `waitLockMode` and `heldLocks` in proc.h): who waits,
/// for which mode, and the modes of the object that the session held when it joined the queue.
#[derive(Clone, Copy, Debug, PartialEq, Eq)]
pub struct Waiter {
    /// The session that waits in the queue of an object.
    pub session: SessionId,
    /// The mode that the waiting session awaits.
    pub mode: Mode,
    /// The modes of the object that the waiting session held when it joined the wait queue.
    pub held: ModeSet,
}
