//! Audits at a desk, over any board.

ghost use Rattle.std.specs.Prelude.{◌≡◌};

use crate::allocator::{refuse, was_refused};
use crate::calls::make;
use crate::told::Told;
use crate::trials::{ANOTHER_TABLE, DATABASE, TABLE, object};
use connections::{Connection, DeskOf, ManagerName};
use lock_manager::Call::TryLock;
use lock_manager::Mode::{AccessShare, RowShare, Share};
use lock_manager::Owner::Transaction;
use lock_manager::{Audit, Board, Desk, OwnSession, Part, Refusal};
use std::alloc::Global;
use std::sync::Wait;

/// What an audit is to count: a weak mode by a slot, and a strong one and four objects in the table.
const COUNTED: Audit = Audit {
    fast: 1,
    table: 5,
    strong: 1,
};

/// Takes with `connection` what an audit is to count.
fn take_counted<B: Board<Part>, M: ManagerName, R: Wait>(
    rt: &R,
    connection: &mut Connection<B, M>,
) {
    make(rt, connection, &TryLock(TABLE, AccessShare, Transaction));
    make(rt, connection, &TryLock(ANOTHER_TABLE, Share, Transaction));
    'objects: for place in 0..4 {
        make(
            rt,
            connection,
            &TryLock(object(place), RowShare, Transaction),
        );
    }
}

/// How it went where two audits answered `counted` and `again`, and a growth of the first one was refused if
/// `refused`.
fn told_of(counted: Result<Audit, Refusal>, again: Result<Audit, Refusal>, refused: bool) -> Told {
    let is_right = again == Ok(COUNTED);
    match counted {
        Ok(counted) => Told::of(refused, false, is_right && counted == COUNTED),
        Err(refusal) => Told::of(refused, refusal == Refusal::NoMemory, is_right),
    }
}

/// Counts what a connection of `desk` has with the growth numbered `growth` refused, and once more.
pub fn tell<B: Board<Part>, D: Desk<OwnSession<Part, B>>, M: ManagerName, R: Wait>(
    rt: &R,
    alloc: Global,
    desk: &mut DeskOf<B, D, M>,
    growth: u16,
) -> Told
    requires none_live { D.live desk.old.desk ≡ 0 }
{
    let Ok(mut crew) = desk.open_all(rt, alloc, DATABASE, 1) else {
        return Told::Otherwise;
    };
    take_counted(rt, &mut crew[0]);
    refuse(alloc, growth);
    let counted = desk.audit(rt, alloc, &mut crew);
    let refused = was_refused(alloc);
    let again = desk.audit(rt, alloc, &mut crew);
    desk.close_all(rt, crew);
    told_of(counted, again, refused)
}
