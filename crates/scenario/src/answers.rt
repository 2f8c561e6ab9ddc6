//! What the lines of a script are answered.

ghost use Rattle.std.specs.Prelude.{◌≡◌};
ghost use Rattle.scenario.specs.Told.{acquire_told, blockers_told, cancel_told, level_told, list_told, queue_told, unlock_told, waiters_told};

use lock_manager::{
    Acquired, Asked, Blocker, Listing, Mode, QueueRow, Refusal, SessionId, SlotRow, TableRow, Tag,
    Unlocked,
};
use lock_script::{Name, NamedObject};

/// What a session is answered: the answer to a line of the session, or that the session goes on after a wait.
#[derive(Clone, Copy, Debug, PartialEq, Eq)]
pub enum Said {
    /// The session was opened, with its number and its database.
    Opened {
        session: SessionId,
        database: u32,
    },
    /// The session has the lock that it asked for.
    Acquired(Acquired),
    /// The session waits for the lock that it asked for.
    Waits,
    /// The session waited, and has its lock.
    GrantedAfterWaiting,
    /// The session waited, and was asked to stop.
    Cancelled,
    /// The other session, of this name, waits, and was asked to stop waiting.
    Asked(Name),
    /// Whether somebody waits for what the session holds.
    Waiters(bool),
    /// The session gave one count of a lock back.
    Unlocked(Unlocked),
    /// The session gave its advisory locks back. The number counts the modes on objects that the session has
    /// no longer.
    UnlockedAll(u32),
    /// The session's transaction ended with success.
    Committed,
    /// The session's transaction ended with failure.
    Aborted,
    /// The session was closed, and has no locks any more.
    Closed,
    /// The session's transaction is nested at this level: 1 where no transaction is nested in another.
    Level(u8),
    /// How often each owner of the session has a lock.
    Owned {
        of_transaction: u16,
        of_session: u16,
    },
    /// The session gave back a lock that it doesn't own in this mode.
    NotOwned(Mode),
    /// The session's call was refused.
    Refused(Refusal),
}

/// A line of an answer that is said to no session: of a listing or a wait queue, for example.
#[derive(Clone, Copy, Debug, PartialEq, Eq)]
pub enum Row {
    /// A lock in a fast-path slot.
    Slot(SlotRow),
    /// A lock in the shared lock table, or a wait for one.
    Table(TableRow),
    /// How many rows a listing has.
    Rows(u64),
    /// A wait in a wait queue.
    Wait(QueueRow),
    /// How many waits a wait queue has.
    Waits(u64),
    /// A blocker: a session in the way of the session of this name.
    InTheWay(Name, Blocker),
    /// The session of this name doesn't wait, so that nothing was asked of it.
    NotWaiting(Name),
    /// What the strong lock counter with this index shows.
    Counter { index: u16, shown: u64 },
    /// An object, whose hash is shown.
    Hash(Tag),
    /// An object was given a name.
    Named(NamedObject),
}

/// What a line of a script is answered.
#[derive(Drop)]
pub enum Answer {
    /// What is said to the session of this name.
    Said(Name, Said),
    /// One row alone, which is said to no session.
    Row(Row),
    /// All that is held and awaited.
    Listing(Listing),
    /// The waits on an object, in the order of its queue.
    Queue(Vec<QueueRow>),
    /// The sessions in the way of the session of this name.
    Blockers(Name, Vec<Blocker>),
    /// The script's own memory didn't suffice, which ends the script.
    NoMemory,
}

/// The script's answer to the session `name` for an acquire that doesn't wait, where the library's call
/// returned `answer`.
pub fn of_acquire(name: Name, answer: Result<Acquired, Refusal>) -> Answer
    ensures { result ≡ acquire_told name answer }
{
    match answer {
        Ok(acquired) => Answer::Said(name, Said::Acquired(acquired)),
        Err(refusal) => Answer::Said(name, Said::Refused(refusal)),
    }
}

/// The script's answer to the session `name` for a release of `mode`, where the library's call returned
/// `answer`.
pub fn of_unlock(name: Name, mode: Mode, answer: Result<Unlocked, Refusal>) -> Answer
    ensures { result ≡ unlock_told name mode answer }
{
    match answer {
        Ok(unlocked) => Answer::Said(name, Said::Unlocked(unlocked)),
        Err(_) => Answer::Said(name, Said::NotOwned(mode)),
    }
}

/// The script's answer to the session `name`, which has `mode`, for a look whether somebody waits for that,
/// where the library's call returned `answer`.
pub fn of_waiters(name: Name, mode: Mode, answer: Result<bool, Refusal>) -> Answer
    ensures { result ≡ waiters_told name mode answer }
{
    match answer {
        Ok(is_awaited) => Answer::Said(name, Said::Waiters(is_awaited)),
        Err(_) => Answer::Said(name, Said::NotOwned(mode)),
    }
}

/// The script's answer to the session `name` for a call that changes the nesting level of its transaction,
/// where the library's call returned `answer`.
pub fn of_level(name: Name, answer: Result<u8, Refusal>) -> Answer
    ensures { result ≡ level_told name answer }
{
    match answer {
        Ok(level) => Answer::Said(name, Said::Level(level)),
        Err(refusal) => Answer::Said(name, Said::Refused(refusal)),
    }
}

/// The script's answer to the session `name`, which asked `other` to stop waiting: `asked` says whether
/// `other` waited.
pub fn of_cancel(name: Name, other: Name, asked: Asked) -> Answer
    ensures { result ≡ cancel_told name other asked }
{
    match asked {
        Asked::Waiting => Answer::Said(name, Said::Asked(other)),
        Asked::NotWaiting => Answer::Row(Row::NotWaiting(other)),
    }
}

/// The script's answer for a listing that the session `name` asked for, where the library's call returned
/// `answer`.
pub fn of_list(name: Name, answer: Result<Listing, Refusal>) -> Answer
    ensures { result ≡ list_told name answer }
{
    match answer {
        Ok(listing) => Answer::Listing(listing),
        Err(refusal) => Answer::Said(name, Said::Refused(refusal)),
    }
}

/// The script's answer for a wait queue that the session `name` asked for, where the library's call returned
/// `answer`.
pub fn of_queue(name: Name, answer: Result<Vec<QueueRow>, Refusal>) -> Answer
    ensures { result ≡ queue_told name answer }
{
    match answer {
        Ok(rows) => Answer::Queue(rows),
        Err(refusal) => Answer::Said(name, Said::Refused(refusal)),
    }
}

/// The script's answer for a look of the session `name` at those in the way of `other`, where the library's
/// call returned `answer`.
pub fn of_blockers(name: Name, other: Name, answer: Result<Vec<Blocker>, Refusal>) -> Answer
    ensures { result ≡ blockers_told name other answer }
{
    match answer {
        Ok(found) => Answer::Blockers(other, found),
        Err(refusal) => Answer::Said(name, Said::Refused(refusal)),
    }
}
