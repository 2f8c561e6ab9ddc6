//! A server's manager with as many sessions as there can be: all of them share one table, and hundreds of
//! them wait in one queue and are let go by one release. On one thread.

use super::audits::{close_counted, count, granted_in};
use super::desk::{Beginning, append, is_full, open, open_many};
use super::limits::list_all;
use super::sessions::{commit, list};
use super::waits::{TABLE, find_granted, find_still, give_back, queue, take};
use connections::{Connection, DeskOf, ManagerName, WaitingConnection};
use lock_manager::{Blocker, Board, Desk, MOST_SESSIONS, Mode, OwnSession, Part, QueueRow};
use std::alloc::Global;
use std::process::Abort;
use std::sync::Wait;

/// How many sessions there are: as many as a server's manager can have.
pub const SESSIONS: u32 = MOST_SESSIONS;

/// How many sessions one release lets go.
const LET_GO: u32 = 300;

/// Ends the test unless a further session is refused at `desk`.
fn expect_full<B: Board<Part>, D: Desk<OwnSession<Part, B>>, M: ManagerName, R: Abort + Wait>(
    rt: &R,
    desk: &mut DeskOf<B, D, M>,
) {
    let is_full = is_full(rt, desk);
    assert!(rt; is_full, "a session more than there can be");
}

/// Ends the test unless `found`, who is in the way of a wait, are all sessions but the one that waits.
fn expect_all_others<R: Abort>(rt: &R, found: &Vec<Blocker>) {
    assert_eq!(rt; found.len(), SESSIONS as usize - 1);
}

/// Begins to wait with `connection` for the table alone, and sees that all others are in the way.
fn begin_behind_all<B: Board<Part>, M: ManagerName, R: Abort + Wait>(
    rt: &R,
    connection: Connection<B, M>,
) -> WaitingConnection<B, M> {
    let mut waiting = queue(rt, connection, Mode::AccessExclusive);
    let found = waiting.waiting.blockers(rt).expect(rt, "who is in the way");
    expect_all_others(rt, &found);
    waiting
}

/// Ends the transaction of `connection`, which lets `waiting` go on only where it `is_last`.
fn end_one<B: Board<Part>, M: ManagerName, R: Abort + Wait>(
    rt: &R,
    connection: &mut Connection<B, M>,
    waiting: WaitingConnection<B, M>,
    is_last: bool,
) -> WaitingConnection<B, M> {
    commit(rt, connection);
    if is_last {
        waiting
    } else {
        find_still(rt, waiting, false)
    }
}

/// Ends the transactions of all `connections`. `waiting` waits until the last of them has ended.
fn end_all<B: Board<Part>, M: ManagerName, R: Abort + Wait>(
    rt: &R,
    connections: &mut [Connection<B, M>],
    mut waiting: WaitingConnection<B, M>,
) -> WaitingConnection<B, M> {
    let many = connections.len();
    for at in 0..many {
        waiting = end_one(rt, &mut connections[at], waiting, at + 1 == many);
    }
    waiting
}

/// Has as many sessions of `desk` as there can be share the table in `mode`, which is counted and listed. One
/// of them then waits for it alone, until each of the others has ended.
pub fn share_among_all<
    B: Board<Part>,
    D: Desk<OwnSession<Part, B>>,
    M: ManagerName,
    R: Abort + Wait,
>(rt: &R, alloc: Global, desk: &mut DeskOf<B, D, M>, mode: Mode) {
    let mut connections = open_many(rt, alloc, desk, SESSIONS, Beginning::Takes(mode));
    expect_full(rt, desk);
    let all = u64::from(SESSIONS);
    let held = if mode == Mode::AccessShare {
        (all, 0, 0)
    } else {
        (0, all, all)
    };
    count(rt, alloc, desk, &mut connections, held);
    list_all(rt, &mut connections, held);
    if let Some(connection) = connections.pop() {
        let waiting = begin_behind_all(rt, connection);
        let waiting = end_all(rt, connections.as_mut_slice(), waiting);
        append(rt, &mut connections, find_granted(rt, waiting));
    }
    close_counted(rt, alloc, desk, connections);
}

/// Opens a session, which waits for the table in `mode`.
fn open_waiting<B: Board<Part>, D: Desk<OwnSession<Part, B>>, M: ManagerName, R: Abort + Wait>(
    rt: &R,
    desk: &mut DeskOf<B, D, M>,
    mode: Mode,
) -> WaitingConnection<B, M> {
    queue(rt, open(rt, desk), mode)
}

/// Opens the sessions that one release lets go: each waits to share the table.
fn open_queue<B: Board<Part>, D: Desk<OwnSession<Part, B>>, M: ManagerName, R: Abort + Wait>(
    rt: &R,
    alloc: Global,
    desk: &mut DeskOf<B, D, M>,
) -> Vec<WaitingConnection<B, M>> {
    let mut waits = Vec::new(alloc);
    for _ in 0..LET_GO {
        append(rt, &mut waits, open_waiting(rt, desk, Mode::AccessShare));
    }
    waits
}

/// Ends the test unless `rows` are of all that wait, in the order of their sessions' numbers, of which the
/// first one is 1.
fn expect_in_order<R: Abort>(rt: &R, rows: &[QueueRow]) {
    let mut number = 1u16;
    for row in rows {
        assert!(rt; row.session.number() == number);
        number = number.saturating_add(1);
    }
    assert_eq!(rt; rows.len(), LET_GO as usize + 1);
}

/// Gives the table back with `connection`, for which all others wait in the order of their numbers: that lets
/// all of them go that share it, and nobody else.
fn let_go<B: Board<Part>, M: ManagerName, R: Abort + Wait>(
    rt: &R,
    connection: &mut Connection<B, M>,
) {
    let rows = connection.session.queue(rt, TABLE).expect(rt, "a queue");
    expect_in_order(rt, rows.as_slice());
    give_back(rt, connection, Mode::AccessExclusive);
    let listing = list(rt, connection).expect(rt, "a listing");
    assert_eq!(rt; granted_in(listing.table.as_slice()), u64::from(LET_GO));
    let left = connection.session.queue(rt, TABLE).expect(rt, "a queue");
    assert_eq!(rt; left.len(), 1);
}

/// Finds that each of `waits` was granted, ends its transaction, and puts its session at the end of
/// `connections`.
fn end_queue<B: Board<Part>, M: ManagerName, R: Abort + Wait>(
    rt: &R,
    mut waits: Vec<WaitingConnection<B, M>>,
    connections: &mut Vec<Connection<B, M>>,
) {
    'waits: while let Some(waiting) = waits.pop() {
        let mut connection = find_granted(rt, waiting);
        commit(rt, &mut connection);
        append(rt, connections, connection);
    }
    waits.destroy_empty();
}

/// Has hundreds of sessions of `desk` wait to share the table which one has alone, and one more wait for it
/// alone. One release lets all go that share it, and the last one goes on once they have ended.
pub fn let_hundreds_go<
    B: Board<Part>,
    D: Desk<OwnSession<Part, B>>,
    M: ManagerName,
    R: Abort + Wait,
>(rt: &R, alloc: Global, desk: &mut DeskOf<B, D, M>) {
    let mut holder = open(rt, desk);
    take(rt, &mut holder, Mode::AccessExclusive);
    let waits = open_queue(rt, alloc, desk);
    let last = open_waiting(rt, desk, Mode::AccessExclusive);
    let_go(rt, &mut holder);
    let last = find_still(rt, last, false);
    let mut connections = Vec::new(alloc);
    append(rt, &mut connections, holder);
    end_queue(rt, waits, &mut connections);
    append(rt, &mut connections, find_granted(rt, last));
    close_counted(rt, alloc, desk, connections);
}
