//! Pools: sessions for connections that come and go.

ghost use Rattle.std.specs.Prelude.{◌≡◌, ◌≢◌, ◌⊎◌, ◌↔◌, ◌<◌, ◌≤◌, ◌+◌, ◌-◌, [], length, min, replicate, IsNone, IfSome, IfNone, IfOk, IfErr, IsErrOf, IsOkUnless, OnOk, OnErr, MatchResult};
ghost use Rattle.lock_manager.specs.Crews.{AreOf, IsOf, SeatsAre};
ghost use Rattle.lock_manager.specs.Desks.{opener_at, session_at};
ghost use Rattle.lock_manager.specs.Managers.{IsOpened};
ghost use Rattle.lock_manager.specs.Pools.{HasNoRoomFor, HasRoomFor, IsLowestBelow, IsNewPool, LendsLowest, TakesIn, life_of};
ghost use Rattle.lock_manager.specs.Reuse.{ServesNext};
ghost use Rattle.lock_manager.specs.Waiting.{AsksOneOf};
ghost use Rattle.modes_core.specs.Sessions.{most_sessions, usual_sessions};

use crate::crews::close_sessions;
use crate::desk::Desk;
use crate::sessions::OwnSession;
use crate::waiting::Asked;
use lock_table::PartTable;
use modes_core::{MOST_SESSIONS, Refusal, SessionId, USUAL_SESSIONS};
use shared_rule::Board;
use std::alloc::{AllocError, Global};
use std::marker::Model;
use std::sync::Wait;

/// A session number, with how often its session was given back to its `SessionPool` before: one connection's
/// use of that session. Once the session is given back, nobody has this life any more.
#[derive(Clone, Copy, Debug, PartialEq, Eq)]
pub struct SessionLife {
    pub number: SessionId,
    pub life: u64,
}

/// Lends the sessions of one manager to connections that come and go, any number of them in turn, and as many
/// at a time as the manager has (`freeProcs` of `ProcGlobal` in proc.c, of which `InitProcess` takes one and
/// to which `ProcKill` gives it back). A session is taken back with nothing held. Contracts see the sessions
/// that nobody has, and the life of each session number for which the pool has room.
pub struct SessionPool<T: PartTable, B: Board<T>> {
    free: Vec<OwnSession<T, B>>,
    lives: Vec<u64>,
}

impl<T: PartTable, B: Board<T>> Model for SessionPool<T, B> {
    ghost use Rattle.std.specs.Prelude.{◌≡◌, ◌≤◌, length};
    ghost use Rattle.std.specs.Vec.{vec_capacity};
    ghost use Rattle.lock_manager.specs.Pools.{PoolView};

    ghost Value = { PoolView B };

    ghost view = { λ pool. record { free = pool.free.items; lives = pool.lives.items } };

    ghost invariant = { λ pool. (length pool.lives.items ≤ vec_capacity pool.free) };
}

/// The index in `free`, which isn't empty, of the session with the lowest number.
fn lowest_place<T: PartTable, B: Board<T>>(free: &Vec<OwnSession<T, B>>) -> usize
    requires some { 0 < length free.now.items }
    ensures within { result < length free.now.items }
    ensures lowest { IsLowestBelow B.seat free.now.items (length free.now.items) result }
{
    let mut lowest = 0usize;
    for place in 1..free.len() {
        let other = free[place].id().number();
        let least = free[lowest].id().number();
        if other < least {
            lowest = place;
        }
    }
    lowest
}

/// The lives of sessions with the numbers below `sessions`, none of which was given back yet: a list of
/// zeros, in memory from `alloc`.
fn no_lives(alloc: Global, sessions: u16) -> Result<Vec<u64>, AllocError>
    ensures { IfOk result (λ lives. lives.items ≡ replicate sessions 0) }
{
    let mut lives = Vec::with_capacity(alloc, usize::from(sessions))?;
    lives.resize(usize::from(sessions), 0)?;
    Ok(lives)
}

impl<T: PartTable, B: Board<T>> SessionPool<T, B> {
    /// A pool with no session yet, for a manager made by `Manager::new`: it has room for `USUAL_SESSIONS`
    /// sessions, which is 64. Refused where memory, by `alloc`, runs out.
    pub fn new(alloc: Global) -> Result<Self, Refusal>
        ensures ok { IfOk result (λ pool. IsNewPool usual_sessions pool) }
        ensures no_memory { IsOkUnless result Refusal.NoMemory }
    {
        Self::with_room(alloc, USUAL_SESSIONS)
    }

    /// A pool with no session yet, for a manager made by `Manager::for_server`: it has room for `sessions`
    /// sessions, but for no more than `MOST_SESSIONS`, which is 1,024. Room for a session takes some thirty
    /// bytes. Refused where memory, by `alloc`, runs out.
    pub fn for_server(alloc: Global, sessions: u32) -> Result<Self, Refusal>
        ensures ok { IfOk result (λ pool. IsNewPool (min sessions most_sessions) pool) }
        ensures no_memory { IsOkUnless result Refusal.NoMemory }
    {
        Self::with_room(alloc, sessions.min(u32::from(MOST_SESSIONS)) as u16)
    }

    /// A pool with no session yet, which has room for `sessions` sessions. Refused where memory, by `alloc`,
    /// runs out.
    fn with_room(alloc: Global, sessions: u16) -> Result<Self, Refusal>
        ensures ok { IfOk result (λ pool. IsNewPool sessions pool) }
        ensures no_memory { IsOkUnless result Refusal.NoMemory }
    {
        let Ok(lives) = no_lives(alloc, sessions) else {
            return Err(Refusal::NoMemory);
        };
        match Vec::with_capacity(alloc, usize::from(sessions)) {
            Ok(free) => Ok(SessionPool { free, lives }),
            Err(_) => Err(Refusal::NoMemory),
        }
    }

    /// How many sessions of the pool are free: no connection has them.
    pub fn free(&self) -> usize
        ensures { result ≡ length self.now.free }
    {
        self.free.len()
    }

    /// The session with the lowest number of those in the pool that nobody has, which serves `database` from
    /// then on, or `None` where the pool has none.
    pub fn lend<R: Wait>(&mut self, rt: &R, database: u32) -> Option<OwnSession<T, B>>
        ensures none { IsNone result ↔ (self.old.free ≡ []) }
        ensures unchanged { IfNone result (self.new ≡ self.old) }
        ensures lent { IfSome result (λ session. LendsLowest B.seat B.view B.stack B.quiet database self.old self.new session) }
    {
        if self.free.is_empty() {
            return None;
        }
        let place = lowest_place(&self.free);
        let mut session = self.free.remove(place);
        session.serve_next(rt, database);
        Some(session)
    }

    /// Takes `session` in, all of whose holds are released, in the order of making (`ProcKill` in proc.c).
    /// Nobody has its life any more. `session` comes back, with nothing held, where the pool has no room for
    /// it: the pool is full, or has no room for a session of that number. Neither can be where the pool has
    /// room for all sessions of the manager.
    pub fn take_in<R: Wait>(
        &mut self,
        rt: &R,
        mut session: OwnSession<T, B>,
    ) -> Result<(), OwnSession<T, B>>
        ensures taken { MatchResult result
            (λ _. TakesIn B.seat B.view B.stack B.quiet session self.old self.new)
            (λ back. ServesNext B.seat B.view B.stack B.quiet 0 session back × (self.new ≡ self.old)
            × HasNoRoomFor (B.seat session.board).number self.old) }
        ensures had_room { OnOk result (HasRoomFor (B.seat session.board).number self.old) }
    {
        session.serve_next(rt, 0);
        let number = usize::from(session.id().number());
        if self.free.len() >= self.lives.len() || number >= self.lives.len() {
            return Err(session);
        }
        self.lives[number] = self.lives[number].wrapping_add(1);
        self.free.push_reserved(session);
        Ok(())
    }

    /// How often the session of `number` was given back to the pool, or 0 where the pool has no room for it.
    fn life(&self, number: SessionId) -> u64
        ensures { result ≡ life_of self.now.lives number }
    {
        self.lives
            .get(usize::from(number.number()))
            .copied()
            .unwrap_or(0)
    }

    /// The present life of `session`: its number, with how often it was given back to the pool.
    pub fn life_of(&self, session: &OwnSession<T, B>) -> SessionLife
        ensures number { result.number ≡ (B.seat session.now.board).number }
        ensures life { result.life ≡ life_of self.now.lives (B.seat session.now.board).number }
    {
        let number = session.id();
        SessionLife {
            number,
            life: self.life(number),
        }
    }

    /// Has `session` ask the session that `other` is a life of to cancel its wait, as
    /// `OwnSession::ask_cancel` does (`processCancelRequest` in postmaster.c, which compares the key of the
    /// session that is to be cancelled). Where that life is over nothing is done, and nobody else's wait
    /// ends: the pool is borrowed meanwhile, so no number goes on to another life.
    pub fn ask_cancel(&self, session: &mut OwnSession<T, B>, other: SessionLife) -> Asked
        ensures over { life_of self.now.lives other.number ≢ other.life →
            (result ≡ Asked.NotWaiting) × (session.new ≡ session.old) }
        ensures asked { life_of self.now.lives other.number ≡ other.life →
            AsksOneOf (B.seat session.old.board).limit (B.view session.old.board) other.number result
            (B.view session.new.board) }
        ensures quiet { B.quiet session.new.board ≡ B.quiet session.old.board }
        ensures owned { session.new.owned ≡ session.old.owned }
        ensures uses { session.new.uses ≡ session.old.uses }
        ensures seat { B.seat session.new.board ≡ B.seat session.old.board }
    {
        if self.life(other.number) != other.life {
            return Asked::NotWaiting;
        }
        session.ask_cancel(other.number)
    }

    /// A session of `desk` for a connection, which works on `database`: the one with the lowest number of
    /// those that nobody has, or else a new one. Refused where all sessions that the manager can have are in
    /// use, and otherwise where memory runs out; after a refusal nothing has changed.
    pub fn open<D: Desk<OwnSession<T, B>>, R: Wait>(
        &mut self,
        rt: &R,
        desk: &mut D,
        database: u32,
    ) -> Result<OwnSession<T, B>, Refusal>
        requires seats { SeatsAre B.seat D.seat }
        requires free { AreOf B.seat (D.manager desk.old) self.old.free }
        ensures lowest { IfOk result (λ session. (self.old.free ≡ [])
            ⊎ LendsLowest B.seat B.view B.stack B.quiet database self.old self.new session) }
        ensures opened { IfOk result (λ session. self.old.free ≡ [] → IsOpened D.seat D.account D.stack
            (opener_at (D.manager desk.old) (D.issued desk.old) (D.live desk.old) (D.closed desk.old)) (D.manager desk.old)
            database (session_at D.database_of D.uses D.owned session)) }
        ensures own { IfOk result (λ session. IsOf B.seat (D.manager desk.old) session) }
        ensures free { AreOf B.seat (D.manager desk.old) self.new.free }
        ensures no_more { IsErrOf result Refusal.NoMoreSessions ↔
            ((self.old.free ≡ []) × (D.issued desk.old ≡ (D.manager desk.old).limit)) }
        ensures no_other { IfErr result (λ refusal. (refusal ≡ Refusal.NoMoreSessions) ⊎ (refusal ≡ Refusal.NoMemory)) }
        ensures unchanged { OnErr result (self.new ≡ self.old) }
        ensures lives { self.new.lives ≡ self.old.lives }
        ensures none_new { self.old.free ≢ [] → desk.new ≡ desk.old }
        ensures live { OnOk result (D.live desk.new + length self.old.free ≡ D.live desk.old + length self.new.free + 1) }
        ensures fewer_free { OnOk result (length self.new.free ≡ length self.old.free - 1) }
        ensures none_live { OnErr result (D.live desk.new ≡ D.live desk.old) }
        ensures manager { D.manager desk.new ≡ D.manager desk.old }
    {
        match self.lend(rt, database) {
            Some(session) => Ok(session),
            None => desk.open(database),
        }
    }

    /// Takes `session` back, one of `desk`, whose connection has ended (`take_in`). Where the pool has no
    /// room for `session`, which can't be if it has room for all sessions of the manager, `session` is
    /// closed, and its number is given out no more.
    pub fn close<D: Desk<OwnSession<T, B>>, R: Wait>(
        &mut self,
        rt: &R,
        desk: &mut D,
        session: OwnSession<T, B>,
    )
        requires seats { SeatsAre B.seat D.seat }
        requires own { IsOf B.seat (D.manager desk.old) session }
        requires free { AreOf B.seat (D.manager desk.old) self.old.free }
        ensures taken { HasRoomFor (B.seat session.board).number self.old →
            TakesIn B.seat B.view B.stack B.quiet session self.old self.new × (desk.new ≡ desk.old) }
        ensures one_more { HasRoomFor (B.seat session.board).number self.old →
            length self.new.free ≡ length self.old.free + 1 }
        ensures not_taken { HasNoRoomFor (B.seat session.board).number self.old → self.new ≡ self.old }
        ensures live { length self.old.free < D.live desk.old →
            D.live desk.new + length self.old.free + 1 ≡ D.live desk.old + length self.new.free }
        ensures free { AreOf B.seat (D.manager desk.old) self.new.free }
        ensures manager { D.manager desk.new ≡ D.manager desk.old }
    {
        if let Err(session) = self.take_in(rt, session) {
            desk.close(rt, session);
        }
    }

    /// Ends the pool: closes, at `desk`, which opened them, all of its sessions that nobody has. Their
    /// numbers are given out no more.
    pub fn end<D: Desk<OwnSession<T, B>>, R: Wait>(self, rt: &R, desk: &mut D)
        requires seats { SeatsAre B.seat D.seat }
        requires free { AreOf B.seat (D.manager desk.old) self.free }
        ensures manager { D.manager desk.new ≡ D.manager desk.old }
        ensures live { D.live desk.new ≡ D.live desk.old - length self.free }
        ensures issued { D.issued desk.new ≡ D.issued desk.old }
    {
        let SessionPool { free, lives: _ } = self;
        close_sessions(rt, desk, free);
    }
}
