//! What is run with sessions: who has what, what is asked for then, and how many growths that takes.

use crate::calls::Outcome::{Conflict, GivenUp, Granted, Listed, Queued, Rows};
use crate::calls::Request::{Blockers, Lock, Makes, Start, While};
use crate::calls::{Outcome, Request};
use lock_manager::Call::{Acquire, List, Queue, TryFast, TryLock, Waits};
use lock_manager::Mode::{AccessExclusive, AccessShare, Exclusive, RowExclusive, Share};
use lock_manager::Owner::Transaction;
use lock_manager::{Mode, Tag};

/// The database of all sessions.
pub const DATABASE: u32 = 5;

/// What a session has: an object and a mode.
pub type Hold = (Tag, Mode);

/// A trial: a session asks for something, beside three other sessions and those that wait.
#[derive(Clone, Copy)]
pub struct Trial {
    pub name: &'static str,
    /// What each of the three other sessions has.
    pub others: [Option<Hold>; 3],
    /// How many objects the asking session has, each in a mode that no waiter asks for.
    pub own: u32,
    /// How many further sessions wait for an object of the asking session, each for a different object, or
    /// all for `awaited`.
    pub waiters: u32,
    /// The one object that all waiters of the trial wait for. `None` where each waits for a different one.
    pub awaited: Option<Tag>,
    pub request: Request,
    pub outcome: Outcome,
    /// How many growths the request of the trial takes.
    pub growths: u16,
}

/// The relation that trials ask for.
pub const TABLE: Tag = Tag::Relation {
    database: 5,
    relation: 16_384,
};

/// The relation numbered one above `TABLE`.
pub const ANOTHER_TABLE: Tag = Tag::Relation {
    database: 5,
    relation: 16_385,
};

/// An object in a partition that has nothing else.
pub const OBJECT: Tag = Tag::Object {
    database: 5,
    class: 1_259,
    object: 16_384,
    sub_object: 0,
};

/// An object in the partition of `TABLE`.
const MANY: Tag = Tag::Object {
    database: 5,
    class: 2_600,
    object: 16_000,
    sub_object: 0,
};

/// The tag of the object numbered `number`: all such objects are in the partition of `TABLE`.
pub fn object(number: u32) -> Tag {
    Tag::object(5, 2_600, 16 * (number % 1_024), 0)
}

/// No other session has anything.
const NOBODY: [Option<Hold>; 3] = [None, None, None];

/// Three other sessions read the table.
const READERS: [Option<Hold>; 3] = [
    Some((TABLE, AccessShare)),
    Some((TABLE, AccessShare)),
    Some((TABLE, AccessShare)),
];

/// The first other session has an object that the asking session wants, in a partition that has nothing else.
const ONE: [Option<Hold>; 3] = [Some((OBJECT, Exclusive)), None, None];

/// The first other session has an object in the partition of the objects that the asking session has.
const ONE_OF_MANY: [Option<Hold>; 3] = [Some((MANY, Exclusive)), None, None];

/// Trials, each with its name; what the others have, how many objects the asking session has, and how many
/// sessions wait, with what they wait for where it is one object; the request, what comes of it, and how many
/// growths it takes.
macro_rules! trials {
    ($(
        $name:literal: $others:ident $own:literal $waiters:literal $($awaited:ident)?,
            $request:expr => $outcome:expr, $growths:literal;
    )+) => {
        [$(Trial {
            name: $name,
            others: $others,
            own: $own,
            waiters: $waiters,
            awaited: awaited!($($awaited)?),
            request: $request,
            outcome: $outcome,
            growths: $growths,
        }),+]
    };
}

/// The one object that all waiters of a trial wait for, if it is one.
macro_rules! awaited {
    () => { None };
    ($tag:ident) => { Some($tag) };
}

/// The trials that are run with sessions.
pub const TRIALS: [Trial; 22] = trials! {
    // Five in a partition that has had nothing yet: a lock record, a holder record, a queue record, a queue,
    // and a name among those woken.
    "try_lock, an object": NOBODY 0 0,
        Makes(TryLock(OBJECT, Exclusive, Transaction)) => Granted, 5;
    // Four more in the local table: its slots, the counts of outer levels, and both lists of the index.
    "try_lock, an object of a session that has sixteen": NOBODY 16 0,
        Makes(TryLock(OBJECT, Exclusive, Transaction)) => Granted, 9;
    // Four in the local table, and four in a partition that is full: both lists of its index, lock records,
    // holder records.
    "try_lock, the seventeenth object of a partition": NOBODY 16 0,
        Makes(TryLock(MANY, Exclusive, Transaction)) => Granted, 8;
    "try_lock, a weak mode by a slot": NOBODY 16 0,
        Makes(TryLock(TABLE, AccessShare, Transaction)) => Granted, 4;
    // Past the slots of three readers, with as many objects in the same partition: the record that has to
    // grow is now that of the first reader, now the session's own, now that of the third one, now of the
    // second one. At last the first one is in the way.
    "try_lock, a strong mode, with nothing beside": READERS 0 0,
        Makes(TryLock(TABLE, AccessExclusive, Transaction)) => Conflict(0, AccessShare), 5;
    "try_lock, a strong mode, with one object beside": READERS 1 0,
        Makes(TryLock(TABLE, AccessExclusive, Transaction)) => Conflict(0, AccessShare), 1;
    "try_lock, a strong mode, with two objects beside": READERS 2 0,
        Makes(TryLock(TABLE, AccessExclusive, Transaction)) => Conflict(0, AccessShare), 1;
    "try_lock, a strong mode, with three objects beside": READERS 3 0,
        Makes(TryLock(TABLE, AccessExclusive, Transaction)) => Conflict(0, AccessShare), 2;
    "try_fast": NOBODY 16 0,
        Makes(TryFast(TABLE, RowExclusive, Transaction)) => Granted, 4;
    "start, granted": NOBODY 0 0,
        Start(OBJECT, Share) => Granted, 5;
    // Four lock records and four holder records are full.
    "start, queued": ONE_OF_MANY 3 0,
        Start(MANY, Share) => Queued, 2;
    // Five lock records and their holder records, with one for each wait, have room. Four queue records are
    // full, the fourth one took the spare queue, and the list of those woken has room for four names.
    "start, queued, with four objects awaited beside": ONE_OF_MANY 4 4,
        Start(MANY, Share) => Queued, 3;
    // There is room for the lock record, a holder record and a spare queue. The queue has room for four
    // waits, and the list of those woken for four names: both grow.
    "start, queued, behind four for the same object": ONE_OF_MANY 0 4 MANY,
        Start(MANY, Share) => Queued, 2;
    "lock, granted": NOBODY 16 0,
        Lock(OBJECT, Share) => Granted, 9;
    "acquire, granted": NOBODY 16 0,
        Makes(Acquire(OBJECT, Share, Transaction)) => Granted, 9;
    "acquire_while, granted": NOBODY 16 0,
        While(OBJECT, Share) => Granted, 9;
    // As where a start is queued.
    "acquire_while, given up": ONE_OF_MANY 3 0,
        While(MANY, Share) => GivenUp, 2;
    "lock, a conflict for a conditional one": ONE 0 0,
        Makes(TryLock(OBJECT, Share, Transaction)) => Conflict(0, Exclusive), 0;
    // A list of three rows, and one that grows to four, eight and sixteen.
    "list, three rows of slots and sixteen of the table": READERS 16 0,
        Makes(List) => Listed(3, 16), 4;
    // One waits for the object of the first one, and the asking session looks at that.
    "queue, a row": ONE 0 1 OBJECT,
        Makes(Queue(OBJECT)) => Rows(1), 1;
    "blockers, a row": ONE 0 1 OBJECT,
        Blockers(OBJECT, 4) => Rows(1), 1;
    "waits, one with one in its way": ONE 0 1 OBJECT,
        Makes(Waits) => Rows(1), 3;
};
