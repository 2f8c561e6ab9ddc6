//! The pool of a server: what opens the sessions of one manager, and those that no connection has.

ghost use Rattle.std.specs.Prelude.{◌≡◌, ◌≢◌, ◌⊎◌, ◌↔◌, ◌<◌, ◌≤◌, ◌-◌, [], length, replicate, None, Some, IfOk, IfErr, IfSome, IfNone, IsSome, IsNone, IsErrOf, IsOkUnless, IsSomeAnd, OnOk, OnErr};
ghost use Rattle.std.specs.Vec.{vec_capacity};
ghost use Rattle.modes_core.specs.Sessions.{most_sessions};
ghost use Rattle.lock_manager.specs.Crews.{AreOf};
ghost use Rattle.lock_manager.specs.Desks.{opener_at, session_at};
ghost use Rattle.lock_manager.specs.Managers.{IsOpened};
ghost use Rattle.lock_manager.specs.Pools.{IsLowestBelow, LendsLowest, TakesIn, life_of, lives_after};
ghost use Rattle.lock_manager.specs.Waiting.{AsksOneOf};
ghost use Rattle.connections.specs.Shown.{ShowsSessions, pool_of};

use crate::connection::Connection;
use crate::names::ManagerName;
use lock_manager::{
    Asked, Board, Desk, MOST_SESSIONS, OwnSession, Part, Refusal, SessionId, SessionLife,
    close_sessions,
};
use std::alloc::{AllocError, Global};
use std::marker::PhantomData;
use std::sync::Wait;

/// How many sessions a pool has room for: as many as a manager can have.
const ROOM: usize = MOST_SESSIONS as usize;

/// Opens the sessions of the manager that `M` names for connections that come and go, any number of them in
/// turn, and as many at a time as the manager has (`freeProcs` of `ProcGlobal` in proc.c). It has the desk
/// `desk` of the manager, the sessions that no connection has, `free`, and how often the session of each
/// number was given back, `lives`.
pub struct Pool<B: Board<Part>, D: Desk<OwnSession<Part, B>>, M: ManagerName> {
    pub(crate) desk: D,
    pub(crate) free: Vec<OwnSession<Part, B>>,
    lives: Vec<u64>,
    of: PhantomData<M>,
    ghost shows: { ShowsSessions B.seat D.seat D.entries D.database_of },
    ghost is: { D.manager desk ≡ M.manager },
    ghost own: { AreOf B.seat M.manager free.items },
    ghost room: { most_sessions ≤ vec_capacity free },
    ghost numbers: { length lives.items ≡ most_sessions },
}

/// The index in `free`, which isn't empty, of the session with the lowest number.
fn lowest_place<B: Board<Part>>(free: &Vec<OwnSession<Part, B>>) -> usize
    requires some { 0 < length free.now.items }
    ensures within { result < length free.now.items }
    ensures lowest { IsLowestBelow B.seat free.now.items (length free.now.items) result }
{
    let mut lowest = 0usize;
    for place in 1..free.len() {
        let other = free[place].id().number();
        let least = free[lowest].id().number();
        if other < least {
            lowest = place;
        }
    }
    lowest
}

/// The lives of as many sessions as `sessions` says, none of which was given back yet, in memory from
/// `alloc`.
fn no_lives(alloc: Global, sessions: usize) -> Result<Vec<u64>, AllocError>
    ensures { IfOk result (λ lives. lives.items ≡ replicate sessions 0) }
{
    let mut lives = Vec::with_capacity(alloc, sessions)?;
    lives.resize(sessions, 0)?;
    Ok(lives)
}

/// Shows that a value was taken out of `taken`.
pub fn nobody<S>(taken: Option<S>)
    requires { taken ≡ None }
{
    match taken {
        None => {}
        Some(_) => unreachable!(),
    }
}

impl<B: Board<Part>, D: Desk<OwnSession<Part, B>>, M: ManagerName> Pool<B, D, M> {
    /// A pool over the desk in `slot`, which it takes, with no session yet. Refused where memory, by `alloc`,
    /// runs out; the desk stays in `slot` then.
    pub fn new(alloc: Global, slot: &mut Option<D>) -> Result<Self, Refusal>
        requires shows { ShowsSessions B.seat D.seat D.entries D.database_of }
        requires is { IsSomeAnd slot.old (λ desk. D.manager desk ≡ M.manager) }
        ensures desk { IfOk result (λ pool. slot.old ≡ Some pool.desk) }
        ensures free { IfOk result (λ pool. pool.free.items ≡ []) }
        ensures lives { IfOk result (λ pool. pool.lives.items ≡ replicate most_sessions 0) }
        ensures taken { OnOk result (slot.new ≡ None) }
        ensures back { OnErr result (slot.new ≡ slot.old) }
        ensures no_memory { IsOkUnless result Refusal.NoMemory }
    {
        let Ok(lives) = no_lives(alloc, ROOM) else {
            return Err(Refusal::NoMemory);
        };
        let Ok(free) = Vec::with_capacity(alloc, ROOM) else {
            return Err(Refusal::NoMemory);
        };
        match slot.take() {
            Some(desk) => Ok(Pool {
                desk,
                free,
                lives,
                of: PhantomData,
            }),
            None => unreachable!(),
        }
    }

    /// How often the session of `number` was given back.
    fn life(&self, number: SessionId) -> u64
        ensures { result ≡ life_of self.now.lives.items number }
    {
        self.lives
            .get(usize::from(number.number()))
            .copied()
            .unwrap_or(0)
    }

    /// The session with the lowest number of those that nobody has, which serves `database` from then on, or
    /// `None` where nobody's is there.
    fn lend<R: Wait>(&mut self, rt: &R, database: u32) -> Option<Connection<B, M>>
        ensures lent { IfSome result (λ its. LendsLowest B.seat B.view B.stack B.quiet database
            (pool_of self.old.free.items self.old.lives.items) (pool_of self.new.free.items self.new.lives.items)
            its.session) }
        ensures life { IfSome result (λ its. its.life ≡ life_of self.old.lives.items (B.seat its.session.board).number) }
        ensures none { IsNone result ↔ (self.old.free.items ≡ []) }
        ensures free { IfNone result (self.new.free ≡ self.old.free) }
        ensures desk { self.new.desk ≡ self.old.desk }
        ensures lives { self.new.lives ≡ self.old.lives }
    {
        if self.free.is_empty() {
            return None;
        }
        let place = lowest_place(&self.free);
        let mut session = self.free.remove(place);
        session.serve_next(rt, database);
        let life = self.life(session.id());
        Some(Connection::new(session, life))
    }

    /// A session for a connection, which works on `database` and holds nothing: the one with the lowest
    /// number of those that nobody has, or else a new one (`InitProcess` in proc.c). Refused where all
    /// sessions that the manager can have are in use, and otherwise where memory runs out; after a refusal
    /// nothing has changed.
    pub fn open<R: Wait>(&mut self, rt: &R, database: u32) -> Result<Connection<B, M>, Refusal>
        ensures nothing { IfOk result (λ its. its.session.owned.entries ≡ []) }
        ensures database { IfOk result (λ its. its.session.database ≡ database) }
        ensures life { IfOk result (λ its. its.life ≡ life_of self.old.lives.items (B.seat its.session.board).number) }
        ensures lives { self.new.lives.items ≡ self.old.lives.items }
        ensures lowest { IfOk result (λ its. self.old.free.items ≢ [] → LendsLowest B.seat B.view B.stack B.quiet database
            (pool_of self.old.free.items self.old.lives.items) (pool_of self.new.free.items self.new.lives.items)
            its.session) }
        ensures opened { IfOk result (λ its. self.old.free.items ≡ [] → IsOpened D.seat D.account D.stack
            (opener_at (D.manager self.old.desk) (D.issued self.old.desk) (D.live self.old.desk) (D.closed self.old.desk))
            (D.manager self.old.desk) database (session_at D.database_of D.uses D.owned its.session)) }
        ensures no_more { IsErrOf result Refusal.NoMoreSessions ↔
            ((self.old.free.items ≡ []) × (D.issued self.old.desk ≡ (D.manager self.old.desk).limit)) }
        ensures no_other { IfErr result (λ refusal. (refusal ≡ Refusal.NoMoreSessions) ⊎ (refusal ≡ Refusal.NoMemory)) }
    {
        if let Some(connection) = self.lend(rt, database) {
            return Ok(connection);
        }
        let session = self.desk.open(database)?;
        let life = self.life(session.id());
        Ok(Connection::new(session, life))
    }

    /// Takes the session of `connection` back, all of whose holds are released, in the order of making
    /// (`ProcKill` in proc.c). Nobody has its life any more.
    pub fn close<R: Wait>(&mut self, rt: &R, connection: Connection<B, M>)
        ensures over { self.new.lives.items ≡ lives_after self.old.lives.items (B.seat connection.session.board).number }
        ensures taken { length self.old.free.items < most_sessions → TakesIn B.seat B.view B.stack B.quiet connection.session
            (pool_of self.old.free.items self.old.lives.items) (pool_of self.new.free.items self.new.lives.items) }
        ensures desk { length self.old.free.items < most_sessions → self.new.desk ≡ self.old.desk }
    {
        let mut session = connection.into_session();
        session.serve_next(rt, 0);
        let number = usize::from(session.id().number());
        self.lives[number] = self.lives[number].wrapping_add(1);
        if self.free.len() < ROOM {
            self.free.push_reserved(session);
        } else {
            // No more than ROOM sessions have a number, so one is missing while a connection has it.
            self.desk.close(rt, session);
        }
    }

    /// Has `connection` ask the session that `other` is a life of to cancel its wait (`processCancelRequest`
    /// in postmaster.c). Where that life is over nothing is done, and nobody else's wait ends.
    pub fn ask_cancel(&self, connection: &mut Connection<B, M>, other: SessionLife) -> Asked
        ensures over { life_of self.now.lives.items other.number ≢ other.life →
            (result ≡ Asked.NotWaiting) × (connection.new ≡ connection.old) }
        ensures asked { life_of self.now.lives.items other.number ≡ other.life →
            AsksOneOf (B.seat connection.old.session.board).limit (B.view connection.old.session.board) other.number result
            (B.view connection.new.session.board) }
        ensures owned { connection.new.session.owned ≡ connection.old.session.owned }
        ensures life { connection.new.life ≡ connection.old.life }
    {
        if self.life(other.number) != other.life {
            return Asked::NotWaiting;
        }
        connection.session.ask_cancel(other.number)
    }

    /// How often the session of each number was given back. Refused where memory for the answer runs out.
    pub fn lives(&self) -> Result<Vec<u64>, Refusal>
        ensures lives { IfOk result (λ lives. lives.items ≡ self.now.lives.items) }
        ensures no_memory { IsOkUnless result Refusal.NoMemory }
    {
        match self.lives.clone() {
            Ok(lives) => Ok(lives),
            Err(_) => Err(Refusal::NoMemory),
        }
    }

    /// How many sessions are open, whether a connection has them or nobody.
    pub fn live(&self) -> u32
        ensures { result ≡ D.live self.now.desk }
    {
        self.desk.live()
    }

    /// Ends the pool that is lent, if one is: closes all sessions that nobody has, and answers the desk.
    pub fn end<R: Wait>(rt: &R, pool: &mut Option<Self>) -> Option<D>
        ensures gone { pool.new ≡ None }
        ensures is { IsSome pool.old → IsSomeAnd result (λ desk. D.manager desk ≡ M.manager) }
        ensures live { IfSome pool.old (λ its. IfSome result (λ desk.
            D.live desk ≡ D.live its.desk - length its.free.items)) }
    {
        match pool.take() {
            Some(pool) => {
                let Pool {
                    mut desk,
                    free,
                    lives: _,
                    of: _,
                } = pool;
                close_sessions(rt, &mut desk, free);
                Some(desk)
            }
            None => None,
        }
    }
}
