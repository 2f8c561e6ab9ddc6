//! A session that goes on to serve somebody else, under the number that it has.

ghost use Rattle.local_locks.specs.Owned.{IsWellOwned};
ghost use Rattle.lock_manager.specs.Rest.{IsAtRest};
ghost use Rattle.lock_manager.specs.Reuse.{ServesNext, session_of};

use crate::releases::end_all;
use crate::sessions::{Own, OwnSession};
use local_locks::End;
use lock_table::PartTable;
use shared_rule::Board;
use std::sync::Wait;

/// Releases all that the session on `board`, which owns `own`, holds, in the order of making, and stores
/// `database` as the session's database from then on (`ProcKill` and then `InitProcess` in proc.c, of one
/// PGPROC).
fn begin_again<T: PartTable, B: Board<T>, R: Wait>(
    rt: &R,
    board: &mut B,
    own: &mut Own,
    database: u32,
)
    requires rest { IsAtRest (B.seat board.old).groups (B.seat board.old).limit own.old.database own.old.uses
        (B.view board.old) (B.stack board.old) own.old.locals.entries }
    requires well_owned { IsWellOwned own.old.locals }
    ensures next { ServesNext B.seat B.view B.stack B.quiet database
        (session_of board.old own.old) (session_of board.new own.new) }
    ensures well_owned { IsWellOwned own.new.locals }
{
    end_all(rt, board, own, End::Close);
    board.store_database(database);
    own.database = database;
}

impl<T: PartTable, B: Board<T>> OwnSession<T, B> {
    /// Goes on to serve somebody else, who works on `database`: all that the session holds is released, in
    /// the order of making, as `close` does, and from then on the session is like one that was just opened,
    /// but for its number, its trace and the room for local entries that it has taken, which it keeps. So a
    /// server whose connections come and go hands a session from one to the next (a PGPROC of `freeProcs` in
    /// proc.c, which `ProcKill` gives back and `InitProcess` takes). The call takes no memory.
    pub fn serve_next<R: Wait>(&mut self, rt: &R, database: u32)
        ensures next { ServesNext B.seat B.view B.stack B.quiet database self.old self.new }
    {
        begin_again(rt, &mut self.board, &mut self.own, database);
    }
}
