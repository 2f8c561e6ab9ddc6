//! Sessions that wait for one table: how a wait begins, is looked at, asked to cancel and seen by others.

use super::answers::{expect_answer, expect_asked};
use super::sessions::{give_tag_back, list, take_tag};
use connections::{Connection, ManagerName, WaitingConnection};
use lock_manager::{
    Asked, Board, Mode, Owner, Part, Polled, Refusal, SessionId, Started, TableRow, Tag,
};
use std::process::Abort;
use std::sync::Wait;
use std::thread;

pub const TABLE: Tag = Tag::Relation {
    database: 5,
    relation: 16_384,
};

pub const OWNER: Owner = Owner::Transaction;

/// Takes the table in `mode` at once with `connection`.
pub fn take<B: Board<Part>, M: ManagerName, R: Abort + Wait>(
    rt: &R,
    connection: &mut Connection<B, M>,
    mode: Mode,
) {
    take_tag(rt, connection, TABLE, mode, OWNER);
}

/// Gives `mode` on the table back with `connection`.
pub fn give_back<B: Board<Part>, M: ManagerName, R: Abort + Wait>(
    rt: &R,
    connection: &mut Connection<B, M>,
    mode: Mode,
) {
    give_tag_back(rt, connection, TABLE, mode, OWNER);
}

/// Begins to wait with `connection` for `mode` on the table.
pub fn queue<B: Board<Part>, M: ManagerName, R: Abort + Wait>(
    rt: &R,
    connection: Connection<B, M>,
    mode: Mode,
) -> WaitingConnection<B, M> {
    match connection.start(rt, TABLE, mode, OWNER) {
        Started::Queued(waiting) => waiting,
        _ => panic!(rt; "{mode} is not queued"),
    }
}

/// Finds that `waiting` goes on, and whether another session asked to cancel it, as `is_asked` says.
pub fn find_still<B: Board<Part>, M: ManagerName, R: Abort>(
    rt: &R,
    waiting: WaitingConnection<B, M>,
    is_asked: bool,
) -> WaitingConnection<B, M> {
    let (waiting, was_asked) = match waiting.poll() {
        Polled::Still(waiting) => (waiting, false),
        Polled::CancelAsked(waiting) => (waiting, true),
        Polled::Granted(_) => panic!(rt; "granted"),
    };
    assert!(rt; was_asked == is_asked);
    waiting
}

/// Ends the wait of `waiting` by one look, which must find it granted, and answers the session. Else the test
/// ends.
pub fn find_granted<B: Board<Part>, M: ManagerName, R: Abort>(
    rt: &R,
    waiting: WaitingConnection<B, M>,
) -> Connection<B, M> {
    match waiting.poll() {
        Polled::Granted(connection) => connection,
        _ => panic!(rt; "not granted"),
    }
}

/// Asks the session numbered `number` to cancel, with `connection`. Ends the test where that isn't answered
/// `asked`.
pub fn ask<B: Board<Part>, M: ManagerName, R: Abort>(
    rt: &R,
    connection: &mut Connection<B, M>,
    number: SessionId,
    asked: Asked,
) {
    let answer = connection.session.ask_cancel(number);
    expect_asked(rt, answer, asked);
}

/// Whether the session numbered `number` waits, which `connection` asks to cancel then.
fn is_heard<B: Board<Part>, M: ManagerName>(
    connection: &mut Connection<B, M>,
    number: SessionId,
) -> bool {
    connection.session.ask_cancel(number) == Asked::Waiting
}

/// Asks the session numbered `number` to cancel, with `connection`, until it is heard.
pub fn ask_until_heard<B: Board<Part>, M: ManagerName, R: Wait>(
    rt: &R,
    connection: &mut Connection<B, M>,
    number: SessionId,
) {
    for _ in rt.forever() {
        if is_heard(connection, number) {
            return;
        }
    }
}

/// Takes `waiting` out of the queue.
pub fn leave<B: Board<Part>, M: ManagerName, R: Abort + Wait>(
    rt: &R,
    waiting: WaitingConnection<B, M>,
) -> Connection<B, M> {
    let (connection, answer) = waiting.cancel(rt).into_parts();
    expect_answer(rt, answer, Err(Refusal::Cancelled));
    connection
}

/// Whether the wait for the table of the session numbered `number` is among `rows`.
fn is_awaited(rows: &[TableRow], number: SessionId) -> bool {
    let mut shown = false;
    for row in rows {
        if row.session == number && row.tag == TABLE && !row.granted {
            shown = true;
        }
    }
    shown
}

/// Whether a listing by `connection` shows the wait of the session numbered `number`.
fn shows_wait<B: Board<Part>, M: ManagerName, R: Wait>(
    rt: &R,
    connection: &mut Connection<B, M>,
    number: SessionId,
) -> bool {
    match list(rt, connection) {
        Ok(listing) => is_awaited(listing.table.as_slice(), number),
        Err(_) => false,
    }
}

/// Lists with `connection` until the wait of the session numbered `number` shows.
pub fn see_wait<B: Board<Part>, M: ManagerName, R: Wait>(
    rt: &R,
    connection: &mut Connection<B, M>,
    number: SessionId,
) {
    for _ in rt.forever() {
        if shows_wait(rt, connection, number) {
            return;
        }
        thread::yield_now();
    }
}

/// Ends the test where the wait that was lent is still there.
pub fn expect_gone<B: Board<Part>, M: ManagerName, R: Abort>(
    rt: &R,
    waiting: Option<WaitingConnection<B, M>>,
) {
    match waiting {
        None => {}
        Some(_) => panic!(rt; "a wait that is lent still"),
    }
}
