//! A pool of a server's sessions, which lends them and takes them back, those with numbers above 64 too.

use super::desk::{Lending, append};
use super::sessions::take_tag;
use connections::{Connection, DeskOf, ManagerName};
use lock_manager::{
    Board, Desk, MOST_SESSIONS, Mode, OwnSession, Owner, Part, Refusal, SessionLife, SessionPool,
    Tag,
};
use std::alloc::Global;
use std::process::Abort;
use std::sync::Wait;

/// How many sessions there are: as many as a server's manager can have.
pub const SESSIONS: u32 = MOST_SESSIONS;

/// How many times the pool lends all sessions.
const LIVES: u32 = 3;

/// Ends the test unless `lent` is the session numbered `number`, in the life numbered `life`.
fn expect_life<R: Abort>(rt: &R, lent: SessionLife, number: u32, life: u32) {
    assert_eq!(rt; u32::from(lent.number.number()), number);
    assert_eq!(rt; lent.life, u64::from(life));
}

/// Has `lending` lend a session of `desk`, which is the one numbered `number`, in the life numbered `life`.
/// The session takes an object of its own number.
fn lend_one<B: Board<Part>, D: Desk<OwnSession<Part, B>>, M: ManagerName, R: Abort + Wait>(
    rt: &R,
    desk: &mut DeskOf<B, D, M>,
    lending: &mut Lending<B, M>,
    lent: &mut Vec<Connection<B, M>>,
    number: u32,
    life: u32,
) {
    let mut connection = lending.open(rt, desk, 5).expect(rt, "a session");
    expect_life(rt, connection.life(), number, life);
    let tag = Tag::object(5, 1_259, number, 0);
    take_tag(rt, &mut connection, tag, Mode::Exclusive, Owner::Session);
    append(rt, lent, connection);
}

/// Has `lending` lend all sessions that there can be of `desk`, in the life numbered `life`, and refuse one
/// more.
fn lend_all<B: Board<Part>, D: Desk<OwnSession<Part, B>>, M: ManagerName, R: Abort + Wait>(
    rt: &R,
    desk: &mut DeskOf<B, D, M>,
    lending: &mut Lending<B, M>,
    lent: &mut Vec<Connection<B, M>>,
    life: u32,
) {
    for number in 0..SESSIONS {
        lend_one(rt, desk, lending, lent, number, life);
    }
    match lending.open(rt, desk, 5) {
        Ok(connection) => append(rt, lent, connection),
        Err(refusal) => assert_eq!(rt; refusal, Refusal::NoMoreSessions),
    }
}

/// Gives all sessions of `desk` that are `lent` back to `lending`, the last one first.
fn take_all_back<B: Board<Part>, D: Desk<OwnSession<Part, B>>, M: ManagerName, R: Abort + Wait>(
    rt: &R,
    desk: &mut DeskOf<B, D, M>,
    lending: &mut Lending<B, M>,
    mut lent: Vec<Connection<B, M>>,
) {
    'lent: while let Some(connection) = lent.pop() {
        lending.close(rt, desk, connection);
    }
    lent.destroy_empty();
}

/// Has `lending` lend all sessions of `desk`, in the life numbered `life`, and take them back.
fn live_once<B: Board<Part>, D: Desk<OwnSession<Part, B>>, M: ManagerName, R: Abort + Wait>(
    rt: &R,
    alloc: Global,
    desk: &mut DeskOf<B, D, M>,
    lending: &mut Lending<B, M>,
    life: u32,
) {
    let mut lent = Vec::new(alloc);
    lend_all(rt, desk, lending, &mut lent, life);
    assert_eq!(rt; lent.len(), SESSIONS as usize);
    take_all_back(rt, desk, lending, lent);
    assert_eq!(rt; lending.pool.free(), SESSIONS as usize);
}

/// Has a pool lend all sessions of `desk`, over and over, each time in another life of theirs.
pub fn lend_often<B: Board<Part>, D: Desk<OwnSession<Part, B>>, M: ManagerName, R: Abort + Wait>(
    rt: &R,
    alloc: Global,
    desk: &mut DeskOf<B, D, M>,
) {
    let pool = SessionPool::for_server(alloc, SESSIONS).expect(rt, "a pool");
    let mut lending = Lending::new(pool);
    for life in 0..LIVES {
        live_once(rt, alloc, desk, &mut lending, life);
    }
    lending.end(rt, desk);
}
