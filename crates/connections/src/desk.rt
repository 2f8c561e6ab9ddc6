//! The desk of the manager that its type names: it opens, counts and closes connections.

ghost use Rattle.std.specs.Prelude.{◌≡◌, ◌≢◌, ◌↔◌, ◌⊎◌, ◌≤◌, ◌+◌, ◌-◌, [], All, None, Some, length, IfErr, IfOk, IsErrOf, IsOkUnless, IsSomeAnd, OnErr, OnOk};
ghost use Rattle.std.specs.Vec.{vec_capacity};
ghost use Rattle.lock_manager.specs.Audits.{entries_owned, strong_owned};
ghost use Rattle.lock_manager.specs.Crews.{AreOf};
ghost use Rattle.lock_manager.specs.Sessions.{DontConflict};
ghost use Rattle.connections.specs.Shown.{AreNumberedFrom, ShowsSessions};

use crate::connection::Connection;
use crate::names::ManagerName;
use lock_manager::{Audit, Board, Desk, OwnSession, Part, Refusal};
use std::alloc::{AllocError, Global};
use std::marker::PhantomData;
use std::sync::Wait;

/// Opens and closes connections of the manager that `M` names, at the desk `desk`, for a program whose
/// connections live as long as it does. Those that come and go are a `Pool`'s. Take it apart with a pattern
/// to have `desk` again.
pub struct DeskOf<B: Board<Part>, D: Desk<OwnSession<Part, B>>, M: ManagerName> {
    pub desk: D,
    pub of: PhantomData<(B, M)>,
    ghost shows: { ShowsSessions B.seat D.seat D.entries D.database_of },
    ghost is: { D.manager desk ≡ M.manager },
}

impl<B: Board<Part>, D: Desk<OwnSession<Part, B>>, M: ManagerName> DeskOf<B, D, M> {
    /// The desk in `slot`, which is taken.
    pub fn new(slot: &mut Option<D>) -> Self
        requires shows { ShowsSessions B.seat D.seat D.entries D.database_of }
        requires is { IsSomeAnd slot.old (λ desk. D.manager desk ≡ M.manager) }
        ensures desk { slot.old ≡ Some result.desk }
        ensures taken { slot.new ≡ None }
    {
        match slot.take() {
            Some(desk) => DeskOf {
                desk,
                of: PhantomData,
            },
            None => unreachable!(),
        }
    }

    /// Opens a connection to `database`, whose session has the next number and holds nothing
    /// (`Opener::session`). Refused where all session numbers are given out, and otherwise where memory runs
    /// out; after a refusal nothing has changed.
    pub fn open(&mut self, database: u32) -> Result<Connection<B, M>, Refusal>
        ensures nothing { IfOk result (λ its. its.session.owned.entries ≡ []) }
        ensures database { IfOk result (λ its. its.session.database ≡ database) }
        ensures number { IfOk result (λ its. (B.seat its.session.board).number ≡ D.issued self.old.desk) }
        ensures issued { OnOk result (D.issued self.new.desk ≡ D.issued self.old.desk + 1) }
        ensures live { OnOk result (D.live self.new.desk ≡ D.live self.old.desk + 1) }
        ensures none_live { OnErr result (D.live self.new.desk ≡ D.live self.old.desk) }
        ensures none_issued { OnErr result (D.issued self.new.desk ≡ D.issued self.old.desk) }
        ensures no_more { IsErrOf result Refusal.NoMoreSessions ↔ (D.issued self.old.desk ≡ M.manager.limit) }
        ensures no_other { IfErr result (λ refusal. (refusal ≡ Refusal.NoMoreSessions) ⊎ (refusal ≡ Refusal.NoMemory)) }
    {
        match self.desk.open(database) {
            Ok(session) => Ok(Connection::new(session, 0)),
            Err(refusal) => Err(refusal),
        }
    }

    /// Opens `number` connections to `database`, in a list in memory from `alloc`: in the order of their
    /// numbers, which follow on one another, and with nothing held. Refused where as many session numbers are
    /// no longer there, and otherwise where memory runs out; after a refusal no more sessions are open than
    /// were before.
    pub fn open_all<R: Wait>(
        &mut self,
        rt: &R,
        alloc: Global,
        database: u32,
        number: u32,
    ) -> Result<Vec<Connection<B, M>>, Refusal>
        ensures all { IfOk result (λ opened. length opened.items ≡ number) }
        ensures nothing { IfOk result (λ opened. All (λ its. its.session.owned.entries ≡ []) opened.items) }
        ensures database { IfOk result (λ opened. All (λ its. its.session.database ≡ database) opened.items) }
        ensures numbers { IfOk result (λ opened.
            AreNumberedFrom (λ its. (B.seat its.session.board).number) (D.issued self.old.desk) opened.items) }
        ensures live { OnOk result (D.live self.new.desk ≡ D.live self.old.desk + number) }
        ensures none_live { OnErr result (D.live self.new.desk ≡ D.live self.old.desk) }
        ensures no_more { IsErrOf result Refusal.NoMoreSessions → D.issued self.new.desk ≡ M.manager.limit }
        ensures no_other { IfErr result (λ refusal. (refusal ≡ Refusal.NoMoreSessions) ⊎ (refusal ≡ Refusal.NoMemory)) }
    {
        let Ok(mut opened) = Vec::with_capacity(alloc, number as usize) else {
            return Err(Refusal::NoMemory);
        };
        'numbers: for place in 0..number {
            match self.open(database) {
                Ok(connection) => opened.push_reserved(connection),
                Err(refusal) => {
                    self.close_all(rt, opened);
                    return Err(refusal);
                }
            }
        }
        Ok(opened)
    }

    /// How many sessions are open.
    pub fn live(&self) -> u32
        ensures { result ≡ D.live self.now.desk }
    {
        self.desk.live()
    }

    /// Has `first` and `second` meet (`Session::meet`), which shows that their numbers differ, and that no
    /// hold of the one conflicts with a hold of the other. `second` comes back. Both hold what they held.
    pub fn meet(&self, first: &mut Connection<B, M>, second: Connection<B, M>) -> Connection<B, M>
        ensures apart { (B.seat first.old.session.board).number ≢ (B.seat second.session.board).number }
        ensures told { DontConflict first.old.session.owned.entries second.session.owned.entries }
        ensures entries { first.new.session.owned.entries ≡ first.old.session.owned.entries }
        ensures its_entries { result.session.owned.entries ≡ second.session.owned.entries }
        ensures life { first.new.life ≡ first.old.life }
        ensures its_life { result.life ≡ second.life }
    {
        let life = second.life().life;
        let session = self.desk.meet(&mut first.session, second.into_session());
        Connection::new(session, life)
    }

    /// Counts what is in the manager (`Manager::audit`), all of whose open sessions `connections` have. These
    /// lend their sessions in a list of their own, in memory from `alloc`, and are in their first life from
    /// then on. Refused where memory runs out.
    pub fn audit<R: Wait>(
        &mut self,
        rt: &R,
        alloc: Global,
        connections: &mut Vec<Connection<B, M>>,
    ) -> Result<Audit, Refusal>
        requires all { length connections.old.items ≡ D.live self.old.desk }
        ensures holds { IfOk result (λ audit. audit.fast + audit.table
            ≡ entries_owned (λ its. its.session.owned.entries) connections.old.items) }
        ensures strong { IfOk result (λ audit.
            audit.strong ≡ strong_owned (λ its. its.session.owned.entries) connections.old.items) }
        ensures as_many { length connections.new.items ≡ length connections.old.items }
        ensures live { D.live self.new.desk ≡ D.live self.old.desk }
        ensures issued { D.issued self.new.desk ≡ D.issued self.old.desk }
        ensures no_memory { IsOkUnless result Refusal.NoMemory }
    {
        let Ok(mut lent) = lend(alloc, connections) else {
            return Err(Refusal::NoMemory);
        };
        let counted = self.desk.audit(rt, &mut lent);
        take_back(connections, lent);
        counted
    }

    /// Closes the session of `connection`. What it still holds is released (`Session::close`).
    pub fn close<R: Wait>(&mut self, rt: &R, connection: Connection<B, M>)
        ensures live { D.live self.new.desk ≡ D.live self.old.desk - 1 }
        ensures issued { D.issued self.new.desk ≡ D.issued self.old.desk }
    {
        self.desk.close(rt, connection.into_session());
    }

    /// Closes the sessions of all `connections`, the last one first. What they still hold is released.
    pub fn close_all<R: Wait>(&mut self, rt: &R, mut connections: Vec<Connection<B, M>>)
        ensures live { D.live self.new.desk ≡ D.live self.old.desk - length connections.items }
        ensures issued { D.issued self.new.desk ≡ D.issued self.old.desk }
    {
        'connections: while let Some(connection) = connections.pop() {
            self.close(rt, connection);
        }
        connections.destroy_empty();
    }
}

/// The sessions of `connections`, all of which are taken out of there, the last one first, in memory from
/// `alloc`. The error is being out of memory: all are still there.
fn lend<B: Board<Part>, M: ManagerName>(
    alloc: Global,
    connections: &mut Vec<Connection<B, M>>,
) -> Result<Vec<OwnSession<Part, B>>, AllocError>
    ensures own { IfOk result (λ lent. AreOf B.seat M.manager lent.items) }
    ensures all { IfOk result (λ lent. length lent.items ≡ length connections.old.items) }
    ensures entries { IfOk result (λ lent. entries_owned (λ its. its.owned.entries) lent.items
        ≡ entries_owned (λ its. its.session.owned.entries) connections.old.items) }
    ensures strong { IfOk result (λ lent. strong_owned (λ its. its.owned.entries) lent.items
        ≡ strong_owned (λ its. its.session.owned.entries) connections.old.items) }
    ensures taken { OnOk result (connections.new.items ≡ []) }
    ensures room { vec_capacity connections.new ≡ vec_capacity connections.old }
    ensures unchanged { OnErr result (connections.new ≡ connections.old) }
{
    let mut lent = Vec::with_capacity(alloc, connections.len())?;
    'connections: while let Some(connection) = connections.pop() {
        lent.push_reserved(connection.into_session());
    }
    Ok(lent)
}

/// Puts connections that have the sessions of `lent` into `connections`, the last one first.
fn take_back<B: Board<Part>, M: ManagerName>(
    connections: &mut Vec<Connection<B, M>>,
    mut lent: Vec<OwnSession<Part, B>>,
)
    requires own { AreOf B.seat M.manager lent.items }
    requires none { connections.old.items ≡ [] }
    requires room { length lent.items ≤ vec_capacity connections.old }
    ensures all { length connections.new.items ≡ length lent.items }
{
    'lent: while let Some(session) = lent.pop() {
        connections.push_reserved(Connection::new(session, 0));
    }
    lent.destroy_empty();
}
