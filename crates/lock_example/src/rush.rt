//! Connections that come and go: many in threads, and more at a time than there are sessions.

ghost use Rattle.std.specs.Prelude.{◌≡◌};

use crate::bank::{ACCOUNTS, DATABASE};
use crate::day::SESSIONS;
use connections::{Connection, ManagerName, Pool, Service, connect, leave, serve};
use lock_manager::{Board, Desk, Mode, OwnSession, Owner, Part, Refusal, SessionId};
use std::alloc::{AllocFailed, Global};
use std::sync::{Mutex, Wait};
use std::thread::Threads;

/// In how many threads connections come, and how many come in each, one after another.
pub const THREADS: u32 = 8;

const IN_EACH: u32 = 125;

/// How many connections come in all threads together.
pub const CONNECTIONS: u32 = THREADS * IN_EACH;

/// Has many connections come to `pool` in threads, each of which reads and goes, while others come. Answers
/// how many were turned away.
pub fn come_and_go<
    B: Board<Part> + Send,
    D: Desk<OwnSession<Part, B>> + Send,
    M: ManagerName + Send,
    R: Threads + Wait + Sync,
>(rt: &R, pool: &Mutex<Pool<B, D, M>>) -> u32 {
    let mut workers = [IN_EACH; THREADS as usize];
    serve(rt, pool, DATABASE, workers.as_mut_slice(), &Reads);
    let mut turned_away = 0u32;
    for unserved in &workers {
        turned_away = turned_away.saturating_add(*unserved);
    }
    turned_away
}

/// The service of connections that read the accounts, and leave what they hold to their end.
struct Reads;

impl Service for Reads {
    fn call<B: Board<Part>, M: ManagerName, R: Wait>(
        &self,
        rt: &R,
        connection: &mut Connection<B, M>,
    ) {
        let _answer = read(rt, connection);
    }
}

/// A statement that reads the accounts on behalf of `connection`, or is refused at once.
fn read<B: Board<Part>, M: ManagerName, R: Wait>(
    rt: &R,
    connection: &mut Connection<B, M>,
) -> Result<(), Refusal> {
    connection
        .session
        .try_lock(rt, ACCOUNTS, Mode::AccessShare, Owner::Transaction)?;
    Ok(())
}

/// Has a connection come to `pool`, read and go, and answers the number of the session that it had. What the
/// connection held is released as its session goes back. A connection that comes when all sessions are lent
/// is turned away.
fn come<B: Board<Part>, D: Desk<OwnSession<Part, B>>, M: ManagerName, R: Wait>(
    rt: &R,
    pool: &Mutex<Pool<B, D, M>>,
) -> Result<SessionId, Refusal> {
    let mut connection = connect(rt, pool, DATABASE)?;
    let answer = read(rt, &mut connection);
    let number = connection.session.id();
    leave(rt, pool, connection);
    answer?;
    Ok(number)
}

/// Has more connections come to `pool` than there are sessions. Answers how the one too many is refused, and
/// which session it has once another connection has ended.
pub fn rush<B: Board<Part>, D: Desk<OwnSession<Part, B>>, M: ManagerName, R: Wait>(
    rt: &R,
    alloc: Global,
    pool: &Mutex<Pool<B, D, M>>,
) -> Result<(Option<Refusal>, SessionId), Refusal> {
    let mut connections = Vec::new(alloc);
    let hired = hire(rt, pool, &mut connections);
    let refused = come(rt, pool).err();
    if let Some(connection) = connections.pop() {
        leave(rt, pool, connection);
    }
    let handed_on = come(rt, pool);
    dismiss(rt, pool, connections);
    hired?;
    Ok((refused, handed_on?))
}

/// Has as many connections come to `pool` as there are sessions, and appends them to `connections`.
fn hire<B: Board<Part>, D: Desk<OwnSession<Part, B>>, M: ManagerName, R: Wait>(
    rt: &R,
    pool: &Mutex<Pool<B, D, M>>,
    connections: &mut Vec<Connection<B, M>>,
) -> Result<(), Refusal> {
    for _ in 0..SESSIONS {
        let connection = connect(rt, pool, DATABASE)?;
        if let Err(AllocFailed { value }) = connections.push(connection) {
            leave(rt, pool, value);
            return Err(Refusal::NoMemory);
        }
    }
    Ok(())
}

/// Ends all of `connections`, the last one first.
fn dismiss<B: Board<Part>, D: Desk<OwnSession<Part, B>>, M: ManagerName, R: Wait>(
    rt: &R,
    pool: &Mutex<Pool<B, D, M>>,
    mut connections: Vec<Connection<B, M>>,
) {
    'connections: while let Some(connection) = connections.pop() {
        leave(rt, pool, connection);
    }
    connections.destroy_empty();
}
