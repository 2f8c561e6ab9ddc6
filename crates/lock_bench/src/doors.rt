//! Doors of a session: the calls of the lock manager that are timed, each in a function of its own that is
//! not inlined.

use connections::{Connection, ManagerName};
use lock_manager::{Acquired, Board, Part, Unlocked};
use modes_core::{Mode, Owner, Refusal, SessionId, Tag};
use std::sync::Wait;

/// `OwnSession::try_lock` of `connection` with `tag`, `mode` and `owner`.
#[inline(never)]
pub fn try_lock<B: Board<Part>, M: ManagerName, R: Wait>(
    rt: &R,
    connection: &mut Connection<B, M>,
    tag: Tag,
    mode: Mode,
    owner: Owner,
) -> Result<Acquired, Refusal> {
    connection.session.try_lock(rt, tag, mode, owner)
}

/// Whether `OwnSession::try_fast` of `connection` with `tag`, `mode` and `owner` finds a strong lock counted.
#[inline(never)]
pub fn finds_counted<B: Board<Part>, M: ManagerName>(
    connection: &mut Connection<B, M>,
    tag: Tag,
    mode: Mode,
    owner: Owner,
) -> bool {
    matches!(
        connection.session.try_fast(tag, mode, owner),
        Err(Refusal::StrongCounted)
    )
}

/// `OwnSession::acquire` of `connection` with `tag`, `mode` and `owner`, which waits where it must; answers
/// whether it was granted.
#[inline(never)]
pub fn acquire<B: Board<Part>, M: ManagerName, R: Wait>(
    rt: &R,
    connection: &mut Connection<B, M>,
    tag: Tag,
    mode: Mode,
    owner: Owner,
) -> bool {
    connection.session.acquire(rt, tag, mode, owner).is_ok()
}

/// `OwnSession::unlock` of `connection` with `tag`, `mode` and `owner`.
#[inline(never)]
pub fn unlock<B: Board<Part>, M: ManagerName, R: Wait>(
    rt: &R,
    connection: &mut Connection<B, M>,
    tag: Tag,
    mode: Mode,
    owner: Owner,
) -> Result<Unlocked, Refusal> {
    connection.session.unlock(rt, tag, mode, owner)
}

/// `OwnSession::commit` of `connection`.
#[inline(never)]
pub fn commit<B: Board<Part>, M: ManagerName, R: Wait>(rt: &R, connection: &mut Connection<B, M>) {
    connection.session.commit(rt);
}

/// Whether `OwnSession::list` of `connection` finds `held` holds or more in the table.
#[inline(never)]
pub fn lists<B: Board<Part>, M: ManagerName, R: Wait>(
    rt: &R,
    connection: &mut Connection<B, M>,
    held: usize,
) -> bool {
    match connection.session.list(rt) {
        Ok(found) => found.table.len() >= held,
        Err(_) => false,
    }
}

/// Whether somebody awaits `tag` in a mode that conflicts with `mode`, by `OwnSession::has_waiters` of
/// `connection`.
#[inline(never)]
pub fn is_awaited<B: Board<Part>, M: ManagerName, R: Wait>(
    rt: &R,
    connection: &mut Connection<B, M>,
    tag: Tag,
    mode: Mode,
) -> bool {
    connection.session.has_waiters(rt, tag, mode) == Ok(true)
}

/// How many sessions are in the way of `other`, which waits on `tag`, by `OwnSession::blockers` of
/// `connection`; 0 where that is refused.
#[inline(never)]
pub fn count_blockers<B: Board<Part>, M: ManagerName, R: Wait>(
    rt: &R,
    connection: &mut Connection<B, M>,
    tag: Tag,
    other: SessionId,
) -> usize {
    match connection.session.blockers(rt, tag, other) {
        Ok(found) => found.len(),
        Err(_) => 0,
    }
}
