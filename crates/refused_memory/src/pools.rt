//! The calls of a pool of connections itself.

use crate::allocator::{refuse, was_refused};
use crate::told::Told;
use crate::trials::DATABASE;
use connections::{ManagerName, Pool};
use lock_manager::{Audit, Board, Desk, OwnSession, Part, Refusal};
use std::alloc::Global;
use std::sync::Wait;

/// What an audit counts where nothing is held.
const NOTHING: Audit = Audit {
    fast: 0,
    table: 0,
    strong: 0,
};

/// Opens a connection of `pool`, which has no session open, and closes it. Answers the number of its session.
fn open_and_close<B: Board<Part>, D: Desk<OwnSession<Part, B>>, M: ManagerName, R: Wait>(
    rt: &R,
    pool: &mut Pool<B, D, M>,
) -> Result<u16, Refusal> {
    let connection = pool.open(rt, DATABASE)?;
    let number = connection.session.id().number();
    pool.close(rt, connection);
    Ok(number)
}

/// Opens a connection of `pool`, which has no session open, with the growth numbered `growth` refused, and
/// once more after a refusal. Its session has the first number.
pub fn open<B: Board<Part>, D: Desk<OwnSession<Part, B>>, M: ManagerName, R: Wait>(
    rt: &R,
    alloc: Global,
    pool: &mut Pool<B, D, M>,
    growth: u16,
) -> Told {
    refuse(alloc, growth);
    let answer = open_and_close(rt, pool);
    let refused = was_refused(alloc);
    if answer.is_ok() {
        return Told::of(refused, false, answer == Ok(0));
    }
    let is_right = pool.live() == 0 && open_and_close(rt, pool) == Ok(0);
    Told::of(refused, answer == Err(Refusal::NoMemory), is_right)
}

/// Has `pool` answer its lives with the growth numbered `growth` refused, and once more after a refusal.
pub fn lives<B: Board<Part>, D: Desk<OwnSession<Part, B>>, M: ManagerName>(
    alloc: Global,
    pool: &Pool<B, D, M>,
    growth: u16,
) -> Told {
    refuse(alloc, growth);
    let answer = pool.lives();
    let refused = was_refused(alloc);
    match answer.err() {
        None => Told::of(refused, false, true),
        Some(refusal) => Told::of(refused, refusal == Refusal::NoMemory, pool.lives().is_ok()),
    }
}

/// Counts what is in the manager of `pool`, which has one session and nothing held, with the growth numbered
/// `growth` refused, and once more after a refusal.
pub fn audit<B: Board<Part>, D: Desk<OwnSession<Part, B>>, M: ManagerName, R: Wait>(
    rt: &R,
    alloc: Global,
    pool: &mut Pool<B, D, M>,
    growth: u16,
) -> Told {
    let opened = open_and_close(rt, pool).is_ok();
    refuse(alloc, growth);
    let counted = pool.audit(rt, alloc);
    let refused = was_refused(alloc);
    let ran_out = counted == Err(Refusal::NoMemory);
    let is_right = opened && pool.live() == 1 && pool.audit(rt, alloc) == Ok(Some(NOTHING));
    Told::of(
        refused,
        ran_out,
        is_right && (ran_out || counted == Ok(Some(NOTHING))),
    )
}
