//! The calls of a session that most tests make, each in a function of its own. It promises nothing, so that
//! what calls it is cheap to prove.

use super::answers::{Answer, expect_granted, expect_released};
use connections::{Connection, ManagerName};
use lock_manager::{Board, Call, Listing, Mode, Owner, Part, Refusal, Tag, Unlocked};
use std::process::Abort;
use std::sync::Wait;

/// Makes `call` with `connection`. If it is a request, answers what that was answered.
pub fn make<B: Board<Part>, M: ManagerName, R: Wait>(
    rt: &R,
    connection: &mut Connection<B, M>,
    call: Call,
) -> Option<Answer> {
    let answer = connection.session.make(rt, call);
    match &answer {
        lock_manager::Answer::Acquired(answer) => Some(*answer),
        _ => None,
    }
}

/// Asks for `tag` in `mode` for `owner` with `connection`, without a wait.
pub fn try_lock<B: Board<Part>, M: ManagerName, R: Wait>(
    rt: &R,
    connection: &mut Connection<B, M>,
    tag: Tag,
    mode: Mode,
    owner: Owner,
) -> Answer {
    connection.session.try_lock(rt, tag, mode, owner)
}

/// Asks for `tag` in `mode` for `owner` with `connection`, by a fast-path slot or not at all.
pub fn try_fast<B: Board<Part>, M: ManagerName>(
    connection: &mut Connection<B, M>,
    tag: Tag,
    mode: Mode,
    owner: Owner,
) -> Answer {
    connection.session.try_fast(tag, mode, owner)
}

/// Asks for `tag` in `mode` for `owner` with `connection`, and sleeps until the wait is over.
pub fn acquire<B: Board<Part>, M: ManagerName, R: Wait>(
    rt: &R,
    connection: &mut Connection<B, M>,
    tag: Tag,
    mode: Mode,
    owner: Owner,
) -> Answer {
    connection.session.acquire(rt, tag, mode, owner)
}

/// Gives `tag` in `mode` of `owner` back once with `connection`.
pub fn unlock<B: Board<Part>, M: ManagerName, R: Wait>(
    rt: &R,
    connection: &mut Connection<B, M>,
    tag: Tag,
    mode: Mode,
    owner: Owner,
) -> Result<Unlocked, Refusal> {
    connection.session.unlock(rt, tag, mode, owner)
}

/// Ends the transaction of `connection`, which gives back what that owns.
pub fn commit<B: Board<Part>, M: ManagerName, R: Wait>(rt: &R, connection: &mut Connection<B, M>) {
    connection.session.commit(rt);
}

/// What `connection` sees in a listing.
pub fn list<B: Board<Part>, M: ManagerName, R: Wait>(
    rt: &R,
    connection: &mut Connection<B, M>,
) -> Result<Listing, Refusal> {
    connection.session.list(rt)
}

/// Takes `tag` in `mode` for `owner` at once with `connection`.
pub fn take_tag<B: Board<Part>, M: ManagerName, R: Abort + Wait>(
    rt: &R,
    connection: &mut Connection<B, M>,
    tag: Tag,
    mode: Mode,
    owner: Owner,
) {
    let answer = try_lock(rt, connection, tag, mode, owner);
    expect_granted(rt, answer, tag, mode);
}

/// Gives `tag` in `mode` of `owner` back with `connection`, which had it once.
pub fn give_tag_back<B: Board<Part>, M: ManagerName, R: Abort + Wait>(
    rt: &R,
    connection: &mut Connection<B, M>,
    tag: Tag,
    mode: Mode,
    owner: Owner,
) {
    let answer = unlock(rt, connection, tag, mode, owner);
    expect_released(rt, answer, tag, mode);
}
