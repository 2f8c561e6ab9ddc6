//! A pool that the threads of a server share: their connections open and close while others work.

ghost use Rattle.std.specs.Prelude.{◌≡◌, ◌⊎◌, [], IfOk, IfErr, IsOkUnless};
ghost use Rattle.lock_manager.specs.Pools.{life_of};

use crate::connection::Connection;
use crate::names::ManagerName;
use crate::pool::Pool;
use lock_manager::{
    Asked, Blocked, Board, Desk, OwnSession, Part, Refusal, SessionId, SessionLife,
};
use std::sync::{Mutex, Wait};
use std::thread::{Threads, for_each_mut};

/// A session of the shared `pool` for a connection that comes, which works on `database` (`Pool::open`).
pub fn connect<B: Board<Part>, D: Desk<OwnSession<Part, B>>, M: ManagerName, R: Wait>(
    rt: &R,
    pool: &Mutex<Pool<B, D, M>>,
    database: u32,
) -> Result<Connection<B, M>, Refusal>
    ensures nothing { IfOk result (λ its. its.session.owned.entries ≡ []) }
    ensures database { IfOk result (λ its. its.session.database ≡ database) }
    ensures no_other { IfErr result (λ refusal. (refusal ≡ Refusal.NoMoreSessions) ⊎ (refusal ≡ Refusal.NoMemory)) }
{
    pool.lock(rt).open(rt, database)
}

/// Ends `connection`: its session goes back to the shared `pool` (`Pool::close`). What it holds is released
/// before the pool is locked, so that nobody waits for the wakeups.
pub fn leave<B: Board<Part>, D: Desk<OwnSession<Part, B>>, M: ManagerName, R: Wait>(
    rt: &R,
    pool: &Mutex<Pool<B, D, M>>,
    mut connection: Connection<B, M>,
) {
    connection.session.serve_next(rt, 0);
    pool.lock(rt).close(rt, connection);
}

/// Has `connection` ask the session that `other` is a life of to cancel its wait, if the shared `pool` has
/// not given that session to another connection since (`Pool::ask_cancel`).
pub fn cancel<B: Board<Part>, D: Desk<OwnSession<Part, B>>, M: ManagerName, R: Wait>(
    rt: &R,
    pool: &Mutex<Pool<B, D, M>>,
    connection: &mut Connection<B, M>,
    other: SessionLife,
) -> Asked
    ensures owned { connection.new.session.owned ≡ connection.old.session.owned }
    ensures life { connection.new.life ≡ connection.old.life }
{
    pool.lock(rt).ask_cancel(connection, other)
}

/// Who waits at one moment, and for whom, with the life that each session had just before.
#[derive(Drop)]
pub struct Look {
    pub waits: Vec<Blocked>,
    lives: Vec<u64>,
}

impl Look {
    /// The session of `number`, with the life that it had just before the look. A session that waited then,
    /// and waits at the look, does so in this life. One that began its life since is in another one, so that
    /// a cancel by what this answers does nothing.
    pub fn life_of(&self, number: SessionId) -> SessionLife
        ensures number { result.number ≡ number }
        ensures life { result.life ≡ life_of self.now.lives.items number }
    {
        let life = self
            .lives
            .get(usize::from(number.number()))
            .copied()
            .unwrap_or(0);
        SessionLife { number, life }
    }
}

/// Has `connection` look at who waits (`OwnSession::waits`), with the lives that the shared `pool` has
/// before. Refused where memory runs out.
pub fn look_at_waits<B: Board<Part>, D: Desk<OwnSession<Part, B>>, M: ManagerName, R: Wait>(
    rt: &R,
    pool: &Mutex<Pool<B, D, M>>,
    connection: &mut Connection<B, M>,
) -> Result<Look, Refusal>
    ensures owned { connection.new.session.owned ≡ connection.old.session.owned }
    ensures life { connection.new.life ≡ connection.old.life }
    ensures no_memory { IsOkUnless result Refusal.NoMemory }
{
    let lives = pool.lock(rt).lives()?;
    let waits = connection.session.waits(rt)?;
    Ok(Look { waits, lives })
}

/// What a server does for each connection.
pub trait Service {
    /// Does for `connection` what it came for. What the connection still holds at the end is released as it
    /// goes.
    fn call<B: Board<Part>, M: ManagerName, R: Wait>(
        &self,
        rt: &R,
        connection: &mut Connection<B, M>,
    );
}

/// Serves a connection of `database` from its coming to its going. Refused where it has no session.
fn serve_one<B: Board<Part>, D: Desk<OwnSession<Part, B>>, M: ManagerName, R: Wait, S: Service>(
    rt: &R,
    pool: &Mutex<Pool<B, D, M>>,
    database: u32,
    service: &S,
) -> Result<(), Refusal> {
    let mut connection = connect(rt, pool, database)?;
    service.call(rt, &mut connection);
    leave(rt, pool, connection);
    Ok(())
}

/// Serves as many connections as `connections` says, one after another, and leaves there how many were turned
/// away.
fn serve_many<B: Board<Part>, D: Desk<OwnSession<Part, B>>, M: ManagerName, R: Wait, S: Service>(
    rt: &R,
    pool: &Mutex<Pool<B, D, M>>,
    database: u32,
    connections: &mut u32,
    service: &S,
) {
    let mut turned_away = 0u32;
    for _ in 0..*connections {
        if serve_one(rt, pool, database, service).is_err() {
            turned_away = turned_away.saturating_add(1);
        }
    }
    *connections = turned_away;
}

/// Serves connections of `database` in a thread for each of `workers`, as many in each as it says, one after
/// another: each has a session of the shared `pool`, and `service` does what it came for. Then each of
/// `workers` is how many connections of its thread were turned away.
pub fn serve<
    B: Board<Part> + Send,
    D: Desk<OwnSession<Part, B>> + Send,
    M: ManagerName + Send,
    R: Threads + Wait + Sync,
    S: Service + Sync,
>(rt: &R, pool: &Mutex<Pool<B, D, M>>, database: u32, workers: &mut [u32], service: &S) {
    let many = workers.len().max(1);
    for_each_mut(
        rt,
        workers,
        many,
        &|_, connections| serve_many(rt, pool, database, connections, service),
    );
}
