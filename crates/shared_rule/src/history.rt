//! What each session's seat at the table knows: the session's history, all steps that it has made. No value
//! of these types is ever made. Clauses alone read them, and what they say of a session is its account
//! (`lock_world`'s `Account`), which the history tells.

use lock_table::Move;
use lw_word::{LwMode, LwWaiter};
use modes_core::{Mode, Tag};
use std::collections::LinkedList;

/// The mark that a step leaves in its session's history, where it names no partition's content. A type apart
/// from `Mark`, since it doesn't depend on the type of contents.
pub enum WordMark {
    /// The session took the lock of the fast-path slots of `owner` exclusively, which show `words` with the
    /// database word `database`.
    TookFast {
        /// The session whose fast-path slots, or whose lock of them, the step is on.
        owner: u16,
        /// The number that the database word of `owner` shows.
        database: u64,
        /// The words of the fast-path slots of `owner`.
        words: [u64; 0],
    },
    /// The session, which held the lock of the fast-path slots of `owner` exclusively, released it. The
    /// lock's word showed `found` before.
    PutFast {
        /// The session whose fast-path slots, or whose lock of them, the step is on.
        owner: u16,
        /// What the word of the released lightweight lock showed before its release.
        found: u64,
    },
    /// The session shares the lock of the fast-path slots of `owner`, which show `words` with the database
    /// word `database`.
    SharedFast {
        /// The session whose fast-path slots, or whose lock of them, the step is on.
        owner: u16,
        /// The number that the database word of `owner` shows.
        database: u64,
        /// The words of the fast-path slots of `owner`.
        words: [u64; 0],
    },
    /// The session gave back its share of the lock of the fast-path slots of `owner`. The lock's word showed
    /// `found` before.
    UnsharedFast {
        /// The session whose fast-path slots, or whose lock of them, the step is on.
        owner: u16,
        /// What the word of the released lightweight lock showed before its release.
        found: u64,
    },
    /// The session released the lock of the fast-path slots of `owner`, and its strong lock of `mode` on
    /// `tag`, which it has counted, is past `owner`. The lock's word showed `found` before.
    Passed {
        /// The session whose fast-path slots the released lock guards.
        owner: u16,
        /// The object of the strong lock.
        tag: Tag,
        /// The mode of the strong lock.
        mode: Mode,
        /// What the word of the released lightweight lock showed before its release.
        found: u64,
    },
    /// The session counted a strong lock of `mode` on `tag` in a strong lock counter.
    Counted {
        /// The object of the strong lock.
        tag: Tag,
        /// The mode of the strong lock.
        mode: Mode,
    },
    /// The session took the count of its strong lock of `mode` on `tag` back.
    Uncounted {
        /// The object of the strong lock.
        tag: Tag,
        /// The mode of the strong lock.
        mode: Mode,
    },
    /// The session loaded its own wait word, which showed `shown`.
    LoadedWait {
        /// What the session's wait word showed.
        shown: u64,
    },
    /// The session asked `other` to cancel its wait. The wait word of `other` showed `before` until then.
    Asked {
        /// The session that was asked to cancel its wait.
        other: u16,
        /// What the wait word of `other` showed before `other` was asked to cancel its wait.
        before: u64,
    },
    /// The session cleared its own wait word.
    ClearedWait,
    /// The session loaded the database word of `owner`, which showed `shown`.
    LoadedDatabase {
        /// The session whose database word was loaded.
        owner: u16,
        /// What the database word of `owner` showed.
        shown: u64,
    },
    /// The session loaded the fast-path slot `slot` of `owner`, which showed `shown`.
    LoadedSlot {
        /// The session whose fast-path slots, or whose lock of them, the step is on.
        owner: u16,
        /// The number of the fast-path slot among those of its session.
        slot: u8,
        /// What the fast-path slot showed.
        shown: u64,
    },
    /// The session loaded the word of the lock of its own fast-path slots, which showed `shown`.
    LoadedFast {
        /// What the word of the lock of the session's own fast-path slots showed.
        shown: u64,
    },
    /// The session loaded the strong lock counter at `index`, which showed `shown`.
    LoadedStrong {
        /// The index of the strong lock counter that was loaded.
        index: u16,
        /// What the strong lock counter showed.
        shown: u64,
    },
    /// The session set `mode` on `tag` in its own fast-path slot `slot`.
    SetSlot {
        /// The number of the fast-path slot among those of its session.
        slot: u8,
        /// The relation for which the fast-path slot is in use.
        tag: Tag,
        /// The mode that was set in the fast-path slot.
        mode: Mode,
    },
    /// The session cleared `mode` on `tag` in its own fast-path slot `slot`.
    ClearedSlot {
        /// The number of the fast-path slot among those of its session.
        slot: u8,
        /// The relation for which the fast-path slot is in use.
        tag: Tag,
        /// The mode that was cleared in the fast-path slot.
        mode: Mode,
    },
    /// The session moved `mode` on `tag` from the fast-path slot `slot` of `owner` to the content in hand of
    /// the partition of `tag`.
    TransferredSlot {
        /// The session whose fast-path slots, or whose lock of them, the step is on.
        owner: u16,
        /// The number of the fast-path slot among those of its session.
        slot: u8,
        /// The relation for which the fast-path slot is in use.
        tag: Tag,
        /// The mode that was moved from the fast-path slot to the lock table.
        mode: Mode,
    },
    /// The session stored its own database.
    StoredDatabase {
        /// The number of the database that was stored.
        database: u32,
    },
    /// The session locked the wait list of the lightweight lock numbered `lock`, in which `waiters` are.
    LockedList {
        /// The number of the lightweight lock.
        lock: u16,
        /// The waiters in the wait list of the lightweight lock.
        waiters: [LwWaiter; 0],
    },
    /// The session put the wait list that it had in hand home and unlocked it.
    UnlockedList,
    /// The session joined the wait list in hand at its end, to take the lightweight lock in `mode`.
    JoinedList {
        /// The mode in which the session wants the lightweight lock.
        mode: LwMode,
    },
    /// The session left the wait list in hand, in which it was itself.
    LeftList,
    /// The session took `other` off the wait list in hand, and has to tell it so in its sleep word.
    TookOff {
        /// The session that was taken off the wait list.
        other: u16,
    },
    /// The session told `other`, which it had taken off a wait list, that it may go on: it stored so in the
    /// sleep word of `other`.
    Told {
        /// The session whose sleep word was changed: it may go on.
        other: u16,
    },
    /// The session loaded its own sleep word, which showed `shown`.
    LoadedSleep {
        /// What the session's sleep word showed.
        shown: u64,
    },
    /// The session set the flag release-ok in the word of the lightweight lock numbered `lock`.
    SetReleaseOk {
        /// The number of the lightweight lock.
        lock: u16,
    },
    /// The session set the flag has-waiters in the word of the lightweight lock numbered `lock`.
    SetHasWaiters {
        /// The number of the lightweight lock.
        lock: u16,
    },
    /// The session saw that another session has the wait list of the lightweight lock numbered `lock` locked:
    /// no step, but a look at the lock's word.
    SawListLocked {
        /// The number of the lightweight lock.
        lock: u16,
    },
    /// The session saw that another session holds the lightweight lock numbered `lock`, in the way of its own
    /// attempt, which is lost so: no step, but a look at the lock's word.
    SawHeld {
        /// The number of the lightweight lock.
        lock: u16,
        /// What the lock's word showed.
        shown: u64,
    },
    /// The session calls `other`, which may be parked on its wait word: no step, but a look at that word,
    /// right before the call.
    CalledWaiter {
        /// The session that is called, to go on if it is parked.
        other: u16,
    },
    /// The session calls `other`, which may be parked on its sleep word: no step, but a look at that word,
    /// right before the call.
    CalledSleeper {
        /// The session that is called, to go on if it is parked.
        other: u16,
    },
    /// The session looked at its own wait word, which showed `shown`, to park on that: no step, but a look
    /// right before it parks. It has nothing left to do that others may wait for.
    ParksWaiting {
        /// What the session's wait word showed.
        shown: u64,
    },
    /// The session looked at its own sleep word, which showed `shown`, to park on that: no step, but a look
    /// right before it parks. It has nothing left to do for others.
    ParksAsleep {
        /// What the session's sleep word showed.
        shown: u64,
    },
}

/// One atomic step of a session, as its history has it.
pub enum Mark<T> {
    /// The session took the partition `part` in hand, with the content `taken`.
    TookPart {
        /// The number of the partition.
        part: u8,
        /// The content of the partition.
        taken: T,
    },
    /// The session put the partition `part` home with the content `put`, after the move `done`. The word of
    /// the partition's lock showed `found` before.
    PutPart {
        /// The number of the partition.
        part: u8,
        /// The move that the session made on the partition's content.
        done: Move,
        /// The content of the partition after the move.
        put: T,
        /// What the word of the released lightweight lock showed before its release.
        found: u64,
    },
    /// The session stored in its own wait word that it waits for `mode` on `tag`. The content in hand is
    /// `now`, in whose wait queue the session is.
    SetWaiting {
        /// The object that the session waits for.
        tag: Tag,
        /// The mode that the session waits for.
        mode: Mode,
        /// The content in hand after the session joined the wait queue.
        now: T,
    },
    /// The session marked the wait of `other` granted. Its move `done`, which made the content in hand `now`,
    /// granted the waits of `woken`.
    MarkedGranted {
        /// The number of the partition.
        part: u8,
        /// The session whose wait was granted.
        other: u16,
        /// The move that granted the waits.
        done: Move,
        /// The sessions whose waits were granted.
        woken: [u16; 0],
        /// The content in hand after the move.
        now: T,
    },
    /// The session cleared its own wait word and left the wait queue, which made the content in hand `now`
    /// and granted the waits of `woken`.
    LeftQueue {
        /// The sessions whose waits were granted.
        woken: [u16; 0],
        /// The content in hand after the session left the wait queue.
        now: T,
    },
    /// Any other step: its mark names no partition's content.
    OfWords(WordMark),
}

/// A session's number and its steps, the last one first. A clause reads the array as a list, of any length.
pub struct History<T> {
    /// The number of the session.
    pub number: u16,
    /// The steps of the session, the last one first.
    pub marks: [Mark<T>; 0],
}

/// What a seat knows: the histories of the sessions that it is for, and, if it is the opener's, the number
/// that the next session gets, and the histories of those that closed, the last one first. A seat is one
/// session's, which makes its steps with it. While two sessions meet, the first one's seat has the other's
/// history after its own.
pub struct View<T> {
    /// The number that the next session gets, at the seat of the opener.
    pub next: Option<u16>,
    /// The histories of the sessions that closed, the last one first.
    pub closed: LinkedList<History<T>>,
    /// The histories of the sessions that the seat is for, the first of which makes its steps.
    pub sessions: LinkedList<History<T>>,
}

/// What a seat knows, and when the last step of each of its sessions was made.
pub struct PlacedView<T> {
    /// What the seat knows of its sessions.
    pub view: View<T>,
    /// The number of each session, and the place of its last step among the steps of all sessions, counted
    /// from 1. Of several places of one session the first counts; one that has none has made no step.
    pub places: LinkedList<(u16, u64)>,
}
