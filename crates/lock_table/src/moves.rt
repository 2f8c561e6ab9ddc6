use modes_core::{Mode, Tag};

/// What a session does to a partition's content between taking it and putting it back.
#[derive(Clone, Copy, PartialEq, Eq)]
pub enum Move {
    /// The session leaves the content as it is.
    Keep,
    /// The session adds a hold of its own (`GrantLock` in lock.c).
    Grant { tag: Tag, mode: Mode },
    /// The session joins the wait queue of `tag` at the place that its request is answered, with the modes of
    /// the object that it holds (`JoinWaitQueue`, in version 16 a part of `ProcSleep` in proc.c).
    Join { tag: Tag, mode: Mode },
    /// The session takes a hold of its own away, and grants the waits that are then free to go (`UnGrantLock`
    /// and `CleanUpLock` in lock.c).
    Release { tag: Tag, mode: Mode },
    /// The session takes its wait out of the wait queue of `tag`, and grants the waits that are then free to
    /// go (`RemoveFromWaitQueue` in lock.c).
    Leave { tag: Tag },
    /// The session adds holds of the session numbered `owner`, which may be itself, that stood in the
    /// fast-path slot `slot` of that session. No single step makes this move: each step that moves a mode out
    /// of the slot adds one hold (`FastPathTransferRelationLocks` in lock.c).
    Adopt { owner: u16, slot: u8 },
}

impl Move {
    ghost use Rattle.std.specs.Prelude.{◌≡◌};
    ghost use Rattle.lock_table.specs.MoveTests.{move_eq, is_leave};

    /// Whether this move is `other`.
    pub fn is_same(self, other: Self) -> bool
        ensures { result ≡ move_eq self other }
    {
        self == other
    }

    /// Whether this move is a `Leave`.
    pub fn is_leave(self) -> bool
        ensures { result ≡ is_leave self }
    {
        match self {
            Move::Leave { tag: _ } => true,
            _ => false,
        }
    }
}
