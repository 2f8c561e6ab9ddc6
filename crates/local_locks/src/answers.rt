/// How a lock was acquired (`LockAcquireResult` in lock.h).
#[derive(Clone, Copy, Debug, PartialEq, Eq)]
pub enum Acquired {
    /// The session didn't have the mode on the object before, and has it now.
    Granted,
    /// The session had the mode before, and has it once more.
    AlreadyHeld,
}

/// What a release left to the session of the lock mode that was released.
#[derive(Clone, Copy, Debug, PartialEq, Eq)]
pub enum Unlocked {
    /// The last count was released: the session no longer has the mode.
    Released,
    /// Other counts are left, so the session still has the mode.
    StillHeld,
}

/// The answer to an acquire that makes only a short look at the local lock table.
#[derive(Clone, Copy, PartialEq, Eq)]
pub enum AtOnce {
    /// The session had the mode before, and has it once more.
    AlreadyHeld,
    /// The session doesn't have the mode on the object, and nothing was counted.
    NotHeld,
    /// Only a whole look at the local lock table can say whether the session has the mode on the object.
    Unknown,
}
