//! Audits, with all open sessions lent, beside numbers that were counted by hand, and beside what one of the
//! sessions sees.

use super::desk::{Beginning, open_behind};
use super::memory::{list_at_last, take_at_last};
use super::sessions::commit;
use connections::{Connection, DeskOf, ManagerName};
use lock_manager::Mode::{
    AccessExclusive, AccessShare, RowExclusive, RowShare, Share, ShareRowExclusive,
    ShareUpdateExclusive,
};
use lock_manager::Owner::{Session, Transaction};
use lock_manager::{
    Audit, Board, Desk, Listing, Mode, OwnSession, Owner, Part, Refusal, TableRow, Tag,
};
use std::alloc::Global;
use std::process::Abort;
use std::sync::Wait;

/// How many sessions there are.
pub const SESSIONS: u32 = 3;

/// The tag of the object numbered `number`: relations of the sessions' database, but for 0, which is no
/// relation.
fn tag(number: u32) -> Tag {
    if number == 0 {
        Tag::object(5, 1_259, 16_384, 0)
    } else {
        Tag::relation(5, number)
    }
}

/// A request: the session at this place takes this mode on the object of this number, for this owner.
type Take = (usize, u32, Mode, Owner);

/// What the sessions take, in this order.
static TAKES: [Take; 11] = [
    // Three modes by slots, and one more, which the session's own strong mode moves to the table.
    (0, 1, AccessShare, Transaction),
    (0, 1, RowExclusive, Session),
    (0, 2, RowShare, Session),
    (0, 3, AccessShare, Transaction),
    (0, 3, Share, Session),
    // One by a slot. What is no relation has none, nor has the fourth mode, and neither is strong.
    (1, 1, AccessShare, Session),
    (1, 0, Share, Transaction),
    (1, 4, ShareUpdateExclusive, Session),
    // Two strong ones. The weak one beside the first is in the table, since that one is counted.
    (2, 5, AccessExclusive, Transaction),
    (2, 5, AccessShare, Transaction),
    (2, 6, ShareRowExclusive, Session),
];

/// How many modes are in slots, how many are in the table, and how many are strong.
pub type Numbers = (u64, u64, u64);

/// What the audits count once one, two and three sessions have taken their locks.
static TAKEN: [Numbers; 3] = [(3, 2, 1), (4, 4, 1), (4, 7, 3)];

/// What the audit counts once all have committed: in slots the first session has two modes and the second one
/// has one, in the table each has one.
const COMMITTED: Numbers = (3, 3, 2);

pub const NOTHING: Numbers = (0, 0, 0);

/// Takes with `connection` all that is for the session at `place`.
pub fn take_each<B: Board<Part>, M: ManagerName, R: Abort + Wait>(
    rt: &R,
    connection: &mut Connection<B, M>,
    place: usize,
) {
    for at in 0..11 {
        let (whose, number, mode, owner) = TAKES[at];
        if whose == place {
            take_at_last(rt, connection, tag(number), mode, owner);
        }
    }
}

/// Ends the test where an audit didn't count `expected`.
fn expect_counted<R: Abort>(rt: &R, counted: Result<Audit, Refusal>, expected: Numbers) {
    let (fast, table, strong) = expected;
    let expected = Audit {
        fast,
        table,
        strong,
    };
    assert_eq!(rt; counted, Ok(expected));
}

/// Ends the test where an audit of all open sessions, those of `connections`, doesn't count `expected`, at
/// the second attempt where there was no memory, since a failed attempt changes nothing.
pub fn count<B: Board<Part>, D: Desk<OwnSession<Part, B>>, M: ManagerName, R: Abort + Wait>(
    rt: &R,
    alloc: Global,
    desk: &mut DeskOf<B, D, M>,
    connections: &mut Vec<Connection<B, M>>,
    expected: Numbers,
) {
    assert_eq!(rt; connections.len() as u64, u64::from(desk.live()));
    let mut counted = desk.audit(rt, alloc, connections);
    if counted.is_err() {
        counted = desk.audit(rt, alloc, connections);
    }
    expect_counted(rt, counted, expected);
}

/// Ends the transaction of `connection`, by a commit where `is_good`, otherwise by an abort.
fn end<B: Board<Part>, M: ManagerName, R: Wait>(
    rt: &R,
    connection: &mut Connection<B, M>,
    is_good: bool,
) {
    if is_good {
        commit(rt, connection);
    } else {
        connection.session.abort(rt);
    }
}

/// Ends the transactions of all `connections`, by commits where `is_good`, otherwise by aborts.
pub fn end_each<B: Board<Part>, M: ManagerName, R: Wait>(
    rt: &R,
    connections: &mut [Connection<B, M>],
    is_good: bool,
) {
    for connection in connections.iter_mut() {
        end(rt, connection, is_good);
    }
}

/// Has three sessions of `desk` take modes, one after another, all commit, and all abort, and an audit count
/// each time what they have.
pub fn audit_often<B: Board<Part>, D: Desk<OwnSession<Part, B>>, M: ManagerName, R: Abort + Wait>(
    rt: &R,
    alloc: Global,
    desk: &mut DeskOf<B, D, M>,
) {
    let mut connections = Vec::new(alloc);
    count(rt, alloc, desk, &mut connections, NOTHING);
    for place in 0..3 {
        open_behind(rt, desk, &mut connections, Beginning::TakesEach(place));
        count(rt, alloc, desk, &mut connections, TAKEN[place]);
    }
    end_each(rt, connections.as_mut_slice(), true);
    count(rt, alloc, desk, &mut connections, COMMITTED);
    end_each(rt, connections.as_mut_slice(), false);
    count(rt, alloc, desk, &mut connections, NOTHING);
    desk.close_all(rt, connections);
}

/// How many of `rows` are of holds.
pub fn granted_in(rows: &[TableRow]) -> u64 {
    rows.iter().filter(|row| row.granted).count() as u64
}

/// What `listing` shows as an audit counts it: the modes in slots, those in the table, and `strong`, the sum
/// of all strong lock counters.
fn numbers_of(listing: &Listing, strong: u64) -> Numbers {
    (
        listing.fast.len() as u64,
        granted_in(listing.table.as_slice()),
        strong,
    )
}

/// The sum of all strong lock counters, as `connection` sees them.
fn sum_counters<B: Board<Part>, M: ManagerName>(connection: &mut Connection<B, M>) -> u64 {
    let mut sum = 0u64;
    for index in 0..1024 {
        sum = sum.saturating_add(connection.session.strong_count(index));
    }
    sum
}

/// What a listing and the strong lock counters show `connection` of all sessions, as an audit counts it.
fn look<B: Board<Part>, M: ManagerName, R: Abort + Wait>(
    rt: &R,
    connection: &mut Connection<B, M>,
) -> Numbers {
    let strong = sum_counters(connection);
    let listing = list_at_last(rt, connection);
    numbers_of(&listing, strong)
}

/// Ends the test where an audit doesn't count what the last of `connections` sees, and closes all of them. No
/// other session is open.
pub fn close_counted<B: Board<Part>, D: Desk<OwnSession<Part, B>>, M: ManagerName, R: Abort + Wait>(
    rt: &R,
    alloc: Global,
    desk: &mut DeskOf<B, D, M>,
    mut connections: Vec<Connection<B, M>>,
) {
    let seen = match connections.last_mut() {
        Some(connection) => look(rt, connection),
        None => NOTHING,
    };
    count(rt, alloc, desk, &mut connections, seen);
    desk.close_all(rt, connections);
}
