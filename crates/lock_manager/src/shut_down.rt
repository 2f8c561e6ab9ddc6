//! All waits are ended, as a server shuts down, over any board.

ghost use Rattle.std.specs.Prelude.{◌≡◌, ◌≤◌, []};
ghost use Rattle.lock_manager.specs.Sessions.{IsSame};
ghost use Rattle.lock_manager.specs.ShutDown.{AsksAll};
ghost use Rattle.modes_core.specs.Sessions.{most_sessions};

use crate::sessions::OwnSession;
use crate::waiting::{Asked, ask_cancel};
use lock_table::PartTable;
use modes_core::SessionId;
use shared_rule::Board;

/// Asks by `board` each session that there can be to cancel its wait, and wakes those that wait. The answer
/// is how many waited.
fn ask_all_to_cancel<T: PartTable, B: Board<T>>(board: &mut B) -> u32
    requires few { (B.seat board.old).limit ≤ most_sessions }
    requires none_owed { (B.stack board.old).owed ≡ [] }
    ensures asked { AsksAll (B.seat board.old).limit (B.view board.old) result (B.view board.new) }
    ensures quiet { B.quiet board.new ≡ B.quiet board.old }
    ensures stack { B.stack board.new ≡ B.stack board.old }
    ensures seat { B.seat board.new ≡ B.seat board.old }
{
    let mut waited = 0u32;
    for number in 0..board.sessions() {
        let other = SessionId::new(number).unwrap();
        match ask_cancel(board, other) {
            Asked::Waiting => waited += 1,
            Asked::NotWaiting => {}
        }
    }
    waited
}

impl<T: PartTable, B: Board<T>> OwnSession<T, B> {
    /// Asks every session to cancel its wait, wakes those that wait, and answers how many they are, as the
    /// first step of a shut-down (`SignalSomeChildren` in postmaster.c, which signals each backend). Each is
    /// asked as by `ask_cancel`: one that is granted first keeps the grant, and a wait that begins later
    /// isn't ended by the call. So a shut-down repeats the call until nobody waits.
    pub fn ask_all_to_cancel(&mut self) -> u32
        ensures asked { AsksAll (B.seat self.old.board).limit (B.view self.old.board) result (B.view self.new.board) }
        ensures quiet { B.quiet self.new.board ≡ B.quiet self.old.board }
        ensures owned { self.new.owned ≡ self.old.owned }
        ensures uses { self.new.uses ≡ self.old.uses }
        ensures same { IsSame B.seat B.view B.stack self.old self.new }
    {
        ask_all_to_cancel(&mut self.board)
    }
}
