//! Connections that come and go: each of them has the one number that there is, in a life of its own.

use super::answers::expect_granted;
use super::desk::Lending;
use super::sessions::{take_tag, try_fast};
use connections::{Connection, DeskOf, ManagerName};
use lock_manager::{Asked, Board, Desk, Mode, OwnSession, Owner, Part, SessionPool, Tag};
use std::alloc::Global;
use std::process::Abort;
use std::sync::Wait;

/// Ends the test unless a connection to `database`, whose session says `its_database` and `number`, has the
/// first number.
fn expect_first<R: Abort>(rt: &R, database: u32, its_database: u32, number: u16) {
    assert_eq!(rt; its_database, database);
    assert_eq!(rt; number, 0);
}

/// Ends the test unless `next` is another life than `last`, and a cancel for `last` was answered `asked` as
/// where nobody waits.
fn expect_another_life<R: Abort>(rt: &R, last: u64, next: u64, asked: Asked) {
    assert!(rt; next != last);
    assert!(rt; asked == Asked::NotWaiting);
}

/// Takes what a connection to `database` takes with `connection`, and leaves it there: a mode by a slot, a
/// strong one of the session's own, and an advisory lock in a savepoint. The connection that had the session
/// before has left nothing of these.
fn take_and_leave<B: Board<Part>, M: ManagerName, R: Abort + Wait>(
    rt: &R,
    connection: &mut Connection<B, M>,
    database: u32,
) {
    expect_first(
        rt,
        database,
        connection.session.database(),
        connection.session.id().number(),
    );
    let weak = Tag::relation(database, 16_384);
    let answer = try_fast(connection, weak, Mode::AccessShare, Owner::Transaction);
    expect_granted(rt, answer, weak, Mode::AccessShare);
    take_tag(rt, connection, weak, Mode::AccessExclusive, Owner::Session);
    let level = connection.session.begin_nested().expect(rt, "a level");
    assert_eq!(rt; level, 2);
    let advisory = Tag::advisory(5, 0, 42, 1);
    take_tag(rt, connection, advisory, Mode::Exclusive, Owner::Session);
}

/// Has a connection to `database` come and go, with a session of `lending`.
fn live_once<B: Board<Part>, D: Desk<OwnSession<Part, B>>, M: ManagerName, R: Abort + Wait>(
    rt: &R,
    desk: &mut DeskOf<B, D, M>,
    lending: &mut Lending<B, M>,
    database: u32,
) {
    let mut connection = lending.open(rt, desk, database).expect(rt, "a session");
    take_and_leave(rt, &mut connection, database);
    lending.close(rt, desk, connection);
}

/// Has a connection of `lending` at `desk` end, and the next one, which has the same number, ask for a cancel
/// of the first one's wait: that is answered as where nobody waits.
fn ask_the_last_one<B: Board<Part>, D: Desk<OwnSession<Part, B>>, M: ManagerName, R: Abort + Wait>(
    rt: &R,
    desk: &mut DeskOf<B, D, M>,
    lending: &mut Lending<B, M>,
) {
    let connection = lending.open(rt, desk, 5).expect(rt, "a session");
    let last = connection.life();
    lending.close(rt, desk, connection);
    let mut connection = lending.open(rt, desk, 6).expect(rt, "a session");
    let next = connection.life();
    let (last_life, next_life) = (last.life, next.life);
    let asked = lending.pool.ask_cancel(&mut connection.session, last);
    expect_another_life(rt, last_life, next_life, asked);
    lending.close(rt, desk, connection);
}

/// Has `lives` connections come and go at `desk`, one after another, each with a session of one pool.
pub fn come_and_go<B: Board<Part>, D: Desk<OwnSession<Part, B>>, M: ManagerName, R: Abort + Wait>(
    rt: &R,
    alloc: Global,
    desk: &mut DeskOf<B, D, M>,
    lives: u32,
) {
    let pool = SessionPool::new(alloc).expect(rt, "a pool");
    let mut lending = Lending::new(pool);
    for life in 0..lives {
        live_once(rt, desk, &mut lending, 5 + life % 2);
    }
    ask_the_last_one(rt, desk, &mut lending);
    lending.end(rt, desk);
}
