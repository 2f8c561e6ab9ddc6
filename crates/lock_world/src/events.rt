use lock_table::Move;
use lw_word::LwMode;
use modes_core::{Mode, SessionId, Tag};

/// A word of the shared table. Every atomic step is on one word.
#[derive(Clone, Copy)]
pub enum Word {
    /// The lightweight lock of a partition, 0 to 15 (`LockHashPartitionLockByIndex` in lock.h).
    Partition(u8),
    /// The lightweight lock of a session's fast-path slots (`fpInfoLock` in proc.h).
    Fast(SessionId),
    /// The database of a session (`databaseId` in proc.h).
    Database(SessionId),
    /// A fast-path slot of a session, 0 to 15 in the first group of slots, and 16 more in each further one,
    /// with its relation and three bits for modes (`fpRelId` and `fpLockBits` in proc.h).
    Slot(SessionId, u8),
    /// The wait word of a session: whether the session waits for an object, and whether it was asked to
    /// cancel that wait (`waitStatus` in proc.h).
    Wait(SessionId),
    /// A counter of strong locks, 0 to 1023 (`FastPathStrongRelationLocks` in lock.c).
    Strong(u16),
    /// The sleep word of a session: whether the session sleeps for a lightweight lock (`lwWaiting` in
    /// proc.h).
    Sleep(SessionId),
}

/// An atomic step of a session on one word of the shared table.
#[derive(Clone, Copy)]
pub enum Step {
    /// Take a lightweight lock exclusively, by a compare-exchange; the content of a partition comes
    /// with its word (`LWLockAcquire` in lwlock.c).
    TakeExclusive {
        /// The word of the lightweight lock that the step is on.
        word: Word,
    },
    /// Put a lightweight lock that is held exclusively, by a fetch-and-subtract; the content of a
    /// partition goes home with its word, after one move; with any other word the move is to keep
    /// (`LWLockRelease` in lwlock.c).
    PutExclusive {
        /// The word of the lightweight lock that the step is on.
        word: Word,
        /// The session's one move on the content of the partition, or to keep the content as it is.
        done: Move,
    },
    /// Take a lightweight lock shared, by a compare-exchange that adds 1 (`LWLockAcquire` with `LW_SHARED`
    /// in lwlock.c). A partition's content does not come with its word.
    TakeShared {
        /// The word of the lightweight lock that the step is on.
        word: Word,
    },
    /// Put a lightweight lock that is held shared, by a fetch-and-subtract of 1 (`LWLockRelease` in
    /// lwlock.c).
    PutShared {
        /// The word of the lightweight lock that the step is on.
        word: Word,
    },
    /// Put the lock of a session's fast-path slots, which was held exclusively, by a fetch-and-subtract, and
    /// go past that session with a strong lock that is counted: that session has no slot on the object (the
    /// end of a turn of the loop in `FastPathTransferRelationLocks` in lock.c).
    PutPassing {
        /// The session whose fast-path slots the lightweight lock guards.
        owner: SessionId,
        /// The object of the strong lock that goes past `owner`.
        tag: Tag,
        /// The mode of the strong lock that goes past `owner`.
        mode: Mode,
    },
    /// Split a seat: a session number is issued, or a session that was kept apart goes on by itself
    /// (`InitProcess` in proc.c).
    SplitSeat,
    /// Join a seat: another session, `joiner`, keeps the one that makes the step apart, or with no joiner
    /// that one is closed (`ProcKill` in proc.c).
    JoinSeat {
        /// The session that from now on keeps apart the one that makes the step, or `None` where that one is
        /// closed.
        joiner: Option<SessionId>,
    },
    /// Ask a session to cancel its wait, by a fetch-or of bit 2 of its wait word: any session number, issued
    /// or not, closed or not, the asking session's own too (`pg_cancel_backend` in signalfuncs.c, which leads
    /// to the flag `QueryCancelPending` that is looked at while `ProcSleep` waits).
    AskCancel {
        /// The session that is asked to cancel its wait.
        other: SessionId,
    },
    /// Load the session's own wait word, which shows `shown` (`waitStatus` in proc.h, as `ProcSleep` in
    /// proc.c reads it).
    LoadWait {
        /// The value that the session's wait word shows.
        shown: u8,
    },
    /// Store in the session's own wait word that it waits, with the object's partition in hand: the session
    /// joins the wait queue by this step (`ProcSleep` in proc.c sets `waitStatus` so).
    SetWaiting {
        /// The object that the session waits for.
        tag: Tag,
        /// The mode that the session waits for.
        mode: Mode,
    },
    /// Add 1 to another session's wait word, which turns waiting into granted, with the partition in hand:
    /// the move `done` granted the wait of that session (`ProcWakeup` in proc.c sets `waitStatus` so).
    MarkGranted {
        /// The session whose wait is marked as granted.
        other: SessionId,
        /// The move on the partition's content that granted the wait.
        done: Move,
    },
    /// Clear the session's own wait word: the wait is over, and what was granted is the session's own from
    /// then on. With `leaving` this very step takes the wait out of the object's queue, with the partition in
    /// hand (`LockErrorCleanup` in proc.c).
    ClearWait {
        /// Whether the step that clears the session's wait word also takes the session's wait out of the
        /// object's queue.
        leaving: bool,
    },
    /// Load a strong lock counter, which shows `shown` (`FastPathStrongRelationLocks->count`, as
    /// `LockAcquireExtended` in lock.c reads it).
    LoadStrong {
        /// The index of the strong lock counter that is loaded.
        index: u16,
        /// The value that the strong lock counter shows.
        shown: u64,
    },
    /// Load a word, which shows `shown`: any fast-path slot, any session's database, or the lock of the
    /// session's own fast-path slots.
    LoadWord {
        /// The word that is loaded.
        word: Word,
        /// The value that the loaded word shows.
        shown: u64,
    },
    /// Store in one of the session's own fast-path slots that it holds the relation `tag` in `mode`, with the
    /// lock of its slots held (`FastPathGrantRelationLock` in lock.c).
    SetSlot {
        /// The place of the fast-path slot among the slots of its session.
        slot: u8,
        /// The relation of the fast-path slot.
        tag: Tag,
        /// The mode that is set in the fast-path slot.
        mode: Mode,
    },
    /// Store in one of the session's own fast-path slots that it holds the relation `tag` in `mode` no more,
    /// with the lock of its slots held (`FastPathUnGrantRelationLock` in lock.c).
    ClearSlot {
        /// The place of the fast-path slot among the slots of its session.
        slot: u8,
        /// The relation of the fast-path slot.
        tag: Tag,
        /// The mode that is cleared in the fast-path slot.
        mode: Mode,
    },
    /// Store the number of the session's own database, with none of its fast-path slots in use
    /// (`InitPostgres` in postinit.c).
    StoreDatabase {
        /// The number of the database that is stored.
        database: u32,
    },
    /// Add 1 to the strong lock counter of the object `tag`: the strong lock in `mode` is counted, past no
    /// session yet (`BeginStrongLockAcquire` in lock.c).
    Count {
        /// The object of the strong lock that is counted.
        tag: Tag,
        /// The mode of the strong lock that is counted.
        mode: Mode,
    },
    /// Take 1 from the strong lock counter of the object `tag`: the strong lock in `mode`, which the session
    /// neither has nor awaits, is counted no more (`AbortStrongLockAcquire` and `RemoveLocalLock` in lock.c).
    Uncount {
        /// The object of the strong lock that is counted no more.
        tag: Tag,
        /// The mode of the strong lock that is counted no more.
        mode: Mode,
    },
    /// Move a hold from a fast-path slot of `owner` to the content in hand of the object's partition, for a
    /// strong lock that is counted and goes past `owner` next, with the lock of that session's slots held
    /// (the inner loop of `FastPathTransferRelationLocks` in lock.c).
    TransferSlot {
        /// The session out of whose fast-path slot the hold is moved.
        owner: SessionId,
        /// The place of the fast-path slot among the slots of its session.
        slot: u8,
        /// The object of the strong lock, which is the relation of the fast-path slot.
        tag: Tag,
        /// The mode of the hold that is moved from the fast-path slot to the partition's content.
        mode: Mode,
        /// The mode of the strong lock for which a hold is moved out of the slot.
        strong: Mode,
    },
    /// Lock the wait list of a lightweight lock, by a fetch-or of bit 28 of its word, which was not set
    /// (`LWLockWaitListLock` in lwlock.c).
    LockList {
        /// The word of the lightweight lock that the step is on.
        word: Word,
    },
    /// Unlock the wait list that the session has in hand, by a fetch-and; has-waiters and release-ok go where
    /// they are not to stay (`LWLockWaitListUnlock` and the end of `LWLockWakeup` in lwlock.c).
    UnlockList {
        /// The word of the lightweight lock that the step is on.
        word: Word,
        /// Whether has-waiters is to stay set in the lock's word as its wait list is unlocked.
        has_waiters: bool,
        /// Whether release-ok is to stay set in the lock's word as its wait list is unlocked.
        release_ok: bool,
    },
    /// Store in the session's own sleep word that it waits, and join the lightweight lock's wait list that it
    /// has in hand, after all others (`LWLockQueueSelf` in lwlock.c).
    JoinList {
        /// How the session that joins the wait list wants to take the lightweight lock.
        mode: LwMode,
    },
    /// Store in the session's own sleep word that it waits no more, and leave the lightweight lock's wait
    /// list that it has in hand, if it is still in that list (`LWLockDequeueSelf` in lwlock.c).
    LeaveList,
    /// Store in another session's sleep word that it is taken off and yet to be woken, and take it off the
    /// wait list that the session has in hand (the first loop of `LWLockWakeup` in lwlock.c, which sets
    /// `LW_WS_PENDING_WAKEUP`).
    TakeOff {
        /// The session that is taken off the wait list.
        other: SessionId,
    },
    /// Store in the sleep word of `other`, which the session took off a wait list before, that `other` waits
    /// no more (the second loop of `LWLockWakeup` in lwlock.c).
    Tell {
        /// The session that was taken off a wait list, in whose sleep word the step stores.
        other: SessionId,
    },
    /// Load the session's own sleep word, which shows `shown` (the sleep in `LWLockAcquire` of lwlock.c).
    LoadSleep {
        /// The value that the session's sleep word shows.
        shown: u8,
    },
    /// Set release-ok in the word of a lightweight lock, by a fetch-or; the word showed `shown` before
    /// (`LWLockAcquire` in lwlock.c, once the session was woken).
    SetReleaseOk {
        /// The word of the lightweight lock that the step is on.
        word: Word,
        /// The value that the lightweight lock's word showed before the step.
        shown: u64,
    },
    /// Set has-waiters in the word of the lightweight lock whose wait list is in hand, by a fetch-or; the
    /// word showed `shown` before (`LWLockQueueSelf` in lwlock.c).
    SetHasWaiters {
        /// The word of the lightweight lock that the step is on.
        word: Word,
        /// The value that the lightweight lock's word showed before the step.
        shown: u64,
    },
}

/// One atomic step of one session.
#[derive(Clone, Copy)]
pub struct Event {
    /// The session that makes the step.
    pub session: SessionId,
    /// The step that `session` makes.
    pub step: Step,
}
