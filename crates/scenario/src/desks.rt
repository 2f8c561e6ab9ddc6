//! Desks of scripts: they open and close its sessions, and give them their numbers.
ghost use Rattle.std.specs.Prelude.{◌≡◌, ◌⊎◌, ◌↔◌, ◌≤◌, ◌<◌, ◌+◌, ◌-◌, [], All, true, false, length, IfOk, IfErr, OnOk, OnErr, IsErrOf};
ghost use Rattle.lock_manager.specs.Crews.{AreOf, SeatsAre};
ghost use Rattle.scenario.specs.Numbers.{IsFull, IsKnown, IsNumbered, SeesSessions};

use connections::ManagerName;
use lock_manager::{Desk, OwnSession, Refusal, SessionPool};
use lock_table::PartTable;
use shared_rule::Board;
use std::marker::PhantomData;
use std::sync::Wait;

/// Opens and closes the sessions of a script, and gives them their numbers.
pub trait ScriptDesk<S> {
    ghost use Rattle.std.specs.Prelude.{Bool, ℕ, List};
    ghost use Rattle.local_locks.specs.declared.records.Entry.{Entry};
    ghost use Rattle.lock_manager.specs.Managers.{ManagerView};
    ghost use Rattle.shared_rule.specs.Boards.{Seated};

    // Whose sessions they are.
    ghost manager: { ManagerView };

    // How many numbers were given out, and how many sessions are open.
    ghost issued: { Self → ℕ };

    ghost live: { Self → ℕ };

    // Whether the numbers of closed sessions are given out again.
    ghost again: { Bool };

    // At which table a session is, and under which number; its database; and its local entries.
    ghost seat: { S → Seated };

    ghost database_of: { S → ℕ };

    ghost entries: { S → List Entry };

    /// Opens a session of `database`, which holds nothing. Refused where no number is left for the session,
    /// or where memory runs out; nothing has changed after a refusal.
    fn open<R: Wait>(&mut self, rt: &R, database: u32) -> Result<S, Refusal>
        ensures known { IfOk result (λ session. IsKnown (seat session) manager (issued self.new)) }
        ensures database { IfOk result (λ session. database_of session ≡ database) }
        ensures nothing { IfOk result (λ session. entries session ≡ []) }
        ensures numbered { IfOk result (λ session.
            IsNumbered again manager.limit (seat session).number (issued self.old) (issued self.new)) }
        ensures live { OnOk result (live self.new ≡ live self.old + 1) }
        ensures within { OnOk result (live self.old ≤ issued self.old → live self.new ≤ issued self.new) }
        ensures no_more { IsErrOf result Refusal.NoMoreSessions
            ↔ IsFull again (issued self.old) (live self.old) manager.limit }
        ensures no_other { IfErr result (λ refusal. (refusal ≡ Refusal.NoMoreSessions) ⊎ (refusal ≡ Refusal.NoMemory)) }
        ensures none_live { OnErr result (live self.new ≡ live self.old) }
        ensures none_issued { OnErr result (issued self.new ≡ issued self.old) };

    /// Closes `session`, one of the desk's open ones. All that the session holds is released.
    fn close<R: Wait>(&mut self, rt: &R, session: S)
        requires known { IsKnown (seat session) manager (issued self.old) }
        requires some { 0 < live self.old }
        ensures live { live self.new ≡ live self.old - 1 }
        ensures issued { issued self.new ≡ issued self.old };
}

/// A desk that gives out each session number of the manager that `M` names only once, the next number to each
/// new session.
pub struct OnceDesk<S, D: Desk<S>, M: ManagerName> {
    pub desk: D,
    pub of: PhantomData<(S, M)>,
    ghost is: { D.manager desk ≡ M.manager },
}

impl<S, D: Desk<S>, M: ManagerName> ScriptDesk<S> for OnceDesk<S, D, M> {
    ghost manager = { M.manager };

    ghost issued = { λ once. D.issued once.desk };

    ghost live = { λ once. D.live once.desk };

    ghost again = { false };

    ghost seat = { D.seat };

    ghost database_of = { D.database_of };

    ghost entries = { D.entries };

    fn open<R: Wait>(&mut self, _rt: &R, database: u32) -> Result<S, Refusal> {
        self.desk.open(database)
    }

    fn close<R: Wait>(&mut self, rt: &R, session: S) {
        self.desk.close(rt, session);
    }
}

/// A desk that gives a new session the lowest number that no open session of the manager that `M` names has.
/// Closed sessions go to the desk's pool, which has room for all sessions of the manager and lends them out
/// again.
pub struct ReusingDesk<T: PartTable, B: Board<T>, D: Desk<OwnSession<T, B>>, M: ManagerName> {
    pub desk: D,
    pub pool: SessionPool<T, B>,
    pub(crate) of: PhantomData<M>,
    ghost is: { D.manager desk ≡ M.manager },
    ghost seats: { SeatsAre B.seat D.seat },
    ghost sees: { SeesSessions D.database_of D.entries },
    ghost own: { AreOf B.seat M.manager pool.free },
    ghost known: { All (λ session. (B.seat session.board).number < D.issued desk) pool.free },
    ghost none_closed: { D.live desk ≡ D.issued desk },
    ghost free: { length pool.free ≤ D.issued desk },
    ghost issued: { D.issued desk ≤ M.manager.limit },
    ghost room: { M.manager.limit ≤ length pool.lives },
}

impl<T: PartTable, B: Board<T>, D: Desk<OwnSession<T, B>>, M: ManagerName> ScriptDesk<
    OwnSession<T, B>,
> for ReusingDesk<T, B, D, M> {
    ghost manager = { M.manager };

    ghost issued = { λ reusing. D.issued reusing.desk };

    ghost live = { λ reusing. D.live reusing.desk - length reusing.pool.free };

    ghost again = { true };

    ghost seat = { D.seat };

    ghost database_of = { D.database_of };

    ghost entries = { D.entries };

    fn open<R: Wait>(&mut self, rt: &R, database: u32) -> Result<OwnSession<T, B>, Refusal> {
        if let Some(session) = self.pool.lend(rt, database) {
            return Ok(session);
        }
        let session = self.desk.open(database)?;
        Ok(session)
    }

    fn close<R: Wait>(&mut self, rt: &R, session: OwnSession<T, B>) {
        self.pool.close(rt, &mut self.desk, session);
    }
}
