//! Sessions over boards that no manager made, for tests of a session's calls.

ghost use Rattle.std.specs.Prelude.{◌≡◌, ℕ, ◌≤◌, [], IfOk, IfErr};
ghost use Rattle.local_locks.specs.Owned.{ended_by};
ghost use Rattle.shared_rule.specs.Boards.{nothing_due};
ghost use Rattle.shared_rule.specs.History.{blank_account};
ghost use Rattle.shared_rule.specs.Seats.{MayCloseBy};
ghost use Rattle.fast_path.specs.declared.use_counts.UseCounts.{UseCounts};
ghost use Rattle.lock_manager.specs.Releases.{ReleasesAll};
ghost use Rattle.modes_core.specs.Sessions.{most_sessions};

use crate::sessions::{Own, OwnSession};
use local_locks::End;
use lock_table::PartTable;
use shared_rule::Board;
use std::alloc::Global;
use std::sync::Wait;

impl<T: PartTable, B: Board<T>> OwnSession<T, B> {
    /// A session of `database` over `board`, on which nothing was done: for tests of a session's calls over
    /// boards of their own, since a manager's sessions are opened by its opener. Where memory, by `alloc`,
    /// runs out the board comes back.
    pub fn over(alloc: Global, board: B, database: u32, max_local: u32) -> Result<Self, B>
        requires limit { (B.seat board).limit ≤ most_sessions }
        requires blank { B.view board ≡ blank_account }
        requires stack { B.stack board ≡ nothing_due }
        requires from { 1 ≤ max_local }
        requires to { max_local ≤ 65536 }
        ensures seat { IfOk result (λ session. B.seat session.board ≡ B.seat board) }
        ensures database { IfOk result (λ session. session.database ≡ database) }
        ensures nothing { IfOk result (λ session. session.owned.entries ≡ []) }
        ensures first_level { IfOk result (λ session. session.owned.outer ≡ []) }
        ensures back { IfErr result (λ back. back ≡ board) }
    {
        match Own::new(alloc, database, max_local) {
            Ok(own) => {
                let mut board = board;
                board.store_database(database);
                Ok(OwnSession::of(board, own))
            }
            Err(_) => Err(board),
        }
    }

    /// Ends a session over a board for tests: all that the session holds is released, in the order of making,
    /// and its board comes back.
    pub fn into_board<R: Wait>(self, rt: &R) -> B
        ensures seat { B.seat result ≡ B.seat self.board }
        ensures stack { B.stack result ≡ nothing_due }
        ensures closable { MayCloseBy (B.view result) }
        ensures released { (uses : UseCounts) × ReleasesAll (B.seat self.board).groups (B.seat self.board).number
            (B.view self.board) self.uses (ended_by End.Close self.owned.entries) (B.view result) uses }
    {
        self.end(rt)
    }
}
