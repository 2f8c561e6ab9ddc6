//! Connections of the desk of one manager, one by one and in lists: each is had at the second attempt where
//! there was no memory.

ghost use Rattle.std.specs.Prelude.{◌≡◌, ◌++◌, ◌∷◌, []};
ghost use Rattle.lock_manager.specs.Crews.{AreOf};

use super::audits::take_each;
use super::limits::fill;
use super::waits::take;
use connections::{Connection, DeskOf, ManagerName};
use lock_manager::{Board, Desk, Mode, OwnSession, Part, Refusal, SessionPool};
use std::alloc::{AllocFailed, Global};
use std::marker::PhantomData;
use std::process::Abort;
use std::sync::Wait;

/// The database of all sessions.
const DATABASE: u32 = 5;

/// Opens a connection at `desk`, at the second attempt where there was no memory.
pub fn open<B: Board<Part>, D: Desk<OwnSession<Part, B>>, M: ManagerName, R: Abort>(
    rt: &R,
    desk: &mut DeskOf<B, D, M>,
) -> Connection<B, M> {
    match desk.open(DATABASE) {
        Ok(connection) => connection,
        Err(_) => desk.open(DATABASE).expect(rt, "a session at last"),
    }
}

/// Whether a further session is refused at `desk`, since all numbers are given out.
pub fn is_full<B: Board<Part>, D: Desk<OwnSession<Part, B>>, M: ManagerName, R: Wait>(
    rt: &R,
    desk: &mut DeskOf<B, D, M>,
) -> bool {
    match desk.open(DATABASE) {
        Ok(connection) => {
            desk.close(rt, connection);
            false
        }
        Err(refusal) => refusal == Refusal::NoMoreSessions,
    }
}

/// A pool of sessions of the manager that `M` names.
pub struct Lending<B: Board<Part>, M: ManagerName> {
    pub pool: SessionPool<Part, B>,
    of: PhantomData<M>,
    ghost free: { AreOf B.seat M.manager pool.free },
}

impl<B: Board<Part>, M: ManagerName> Lending<B, M> {
    /// Lends from `pool`, which has no session yet.
    pub fn new(pool: SessionPool<Part, B>) -> Self
        requires { pool.free ≡ [] }
    {
        Lending {
            pool,
            of: PhantomData,
        }
    }

    /// A session of the pool, or a new one of `desk`, for a connection to `database`, in its present life.
    pub fn open<D: Desk<OwnSession<Part, B>>, R: Wait>(
        &mut self,
        rt: &R,
        desk: &mut DeskOf<B, D, M>,
        database: u32,
    ) -> Result<Connection<B, M>, Refusal> {
        let session = self.pool.open(rt, &mut desk.desk, database)?;
        let life = self.pool.life_of(&session).life;
        Ok(Connection::new(session, life))
    }

    /// Takes the session of `connection` back.
    pub fn close<D: Desk<OwnSession<Part, B>>, R: Wait>(
        &mut self,
        rt: &R,
        desk: &mut DeskOf<B, D, M>,
        connection: Connection<B, M>,
    ) {
        self.pool
            .close(rt, &mut desk.desk, connection.into_session());
    }

    /// Closes all sessions of the pool that nobody has.
    pub fn end<D: Desk<OwnSession<Part, B>>, R: Wait>(self, rt: &R, desk: &mut DeskOf<B, D, M>) {
        let Lending { pool, of: _ } = self;
        pool.end(rt, &mut desk.desk);
    }
}

/// Puts `value` at the end of `list`, at the second attempt where there was no memory.
pub fn append<S, R: Abort>(rt: &R, list: &mut Vec<S>, value: S)
    ensures { list.new.items ≡ list.old.items ++ value ∷ [] }
{
    match list.push(value) {
        Ok(()) => {}
        Err(AllocFailed { value }) => match list.push(value) {
            Ok(()) => {}
            Err(_) => panic!(rt; "no memory for a list of sessions"),
        },
    }
}

/// What a session does as soon as it is open.
#[derive(Clone, Copy)]
pub enum Beginning {
    Nothing,
    /// Takes the table in this mode.
    Takes(Mode),
    /// Takes this number of modes, and is refused one more.
    Fills(u32),
    /// Takes the modes that are for the session at this place of an audit.
    TakesEach(usize),
}

/// Has `connection`, which was just opened, do what `beginning` says.
fn begin<B: Board<Part>, M: ManagerName, R: Abort + Wait>(
    rt: &R,
    connection: &mut Connection<B, M>,
    beginning: Beginning,
) {
    match beginning {
        Beginning::Nothing => {}
        Beginning::Takes(mode) => take(rt, connection, mode),
        Beginning::Fills(entries) => fill(rt, connection, entries),
        Beginning::TakesEach(place) => take_each(rt, connection, place),
    }
}

/// Opens a session at `desk`, which does what `beginning` says, and puts it at the end of `connections`.
pub fn open_behind<B: Board<Part>, D: Desk<OwnSession<Part, B>>, M: ManagerName, R: Abort + Wait>(
    rt: &R,
    desk: &mut DeskOf<B, D, M>,
    connections: &mut Vec<Connection<B, M>>,
    beginning: Beginning,
) {
    let mut connection = open(rt, desk);
    begin(rt, &mut connection, beginning);
    append(rt, connections, connection);
}

/// Opens `number` sessions at `desk`, in the order of their numbers. Each does what `beginning` says before
/// the next one is opened.
pub fn open_many<B: Board<Part>, D: Desk<OwnSession<Part, B>>, M: ManagerName, R: Abort + Wait>(
    rt: &R,
    alloc: Global,
    desk: &mut DeskOf<B, D, M>,
    number: u32,
    beginning: Beginning,
) -> Vec<Connection<B, M>> {
    let mut connections = Vec::new(alloc);
    for _ in 0..number {
        open_behind(rt, desk, &mut connections, beginning);
    }
    connections
}
