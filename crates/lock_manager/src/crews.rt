//! Crews: lists of sessions that are closed together, at the desk that opened them.

ghost use Rattle.std.specs.Prelude.{◌≡◌, ◌-◌, length};
ghost use Rattle.lock_manager.specs.Crews.{AreOf, SeatsAre};

use crate::desk::Desk;
use crate::sessions::OwnSession;
use lock_table::PartTable;
use shared_rule::Board;
use std::sync::Wait;

/// Closes all of `crew` at `desk`, the last one first. What these sessions still hold is released.
pub fn close_sessions<T: PartTable, B: Board<T>, D: Desk<OwnSession<T, B>>, R: Wait>(
    rt: &R,
    desk: &mut D,
    mut crew: Vec<OwnSession<T, B>>,
)
    requires seats { SeatsAre B.seat D.seat }
    requires own { AreOf B.seat (D.manager desk.old) crew.items }
    ensures manager { D.manager desk.new ≡ D.manager desk.old }
    ensures live { D.live desk.new ≡ D.live desk.old - length crew.items }
    ensures issued { D.issued desk.new ≡ D.issued desk.old }
{
    'sessions: while let Some(session) = crew.pop() {
        desk.close(rt, session);
    }
    crew.destroy_empty();
}
