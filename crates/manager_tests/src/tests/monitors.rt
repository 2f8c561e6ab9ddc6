//! A session that sees who waits for whom, and that ends all waits.

use super::pair::Pair;
use super::waits::{TABLE, find_still, give_back, leave, queue, take};
use connections::{Connection, ManagerName};
use lock_manager::{Blocked, Board, How, Mode, Part, Refusal, SessionId};
use std::process::Abort;
use std::sync::Wait;

/// Whether `wait` is that of `waiter` for the table in `RowShare`, with `holder` alone in its way, which has
/// it in `Exclusive`.
fn is_behind(wait: &Blocked, waiter: SessionId, holder: SessionId) -> bool {
    let mut is_right = wait.session == waiter && wait.tag == TABLE && wait.mode == Mode::RowShare;
    for blocker in &wait.blockers {
        is_right &= blocker.session == holder;
        is_right &= blocker.mode == Mode::Exclusive;
        is_right &= blocker.how == How::Held;
    }
    is_right && wait.blockers.len() == 1
}

/// Whether `answer` has the one wait of `waiter` for the table, with `holder` alone in its way.
fn has_one(answer: &Result<Vec<Blocked>, Refusal>, waiter: SessionId, holder: SessionId) -> bool {
    let Ok(waits) = answer else {
        return false;
    };
    let mut is_right = waits.len() == 1;
    for wait in waits {
        is_right &= is_behind(wait, waiter, holder);
    }
    is_right
}

/// Ends the test unless `answer` has the one wait of `waiter` for the table, with `holder` alone in its way.
fn expect_one<R: Abort>(
    rt: &R,
    answer: Result<Vec<Blocked>, Refusal>,
    waiter: SessionId,
    holder: SessionId,
) {
    let is_right = has_one(&answer, waiter, holder);
    assert!(rt; is_right);
}

/// Ends the test unless `answer` has no wait.
fn expect_none<R: Abort>(rt: &R, answer: Result<Vec<Blocked>, Refusal>) {
    let seen = match answer {
        Ok(waits) => Some(waits.len()),
        Err(_) => None,
    };
    assert_eq!(rt; seen, Some(0));
}

/// Sees with `connection` no wait at all.
fn see_none<B: Board<Part>, M: ManagerName, R: Abort + Wait>(
    rt: &R,
    connection: &mut Connection<B, M>,
) {
    expect_none(rt, connection.session.waits(rt));
}

/// Sees with `connection`, which has the table in `Exclusive`, the wait of the session numbered `waiter` for
/// `RowShare` there.
fn see_one<B: Board<Part>, M: ManagerName, R: Abort + Wait>(
    rt: &R,
    connection: &mut Connection<B, M>,
    waiter: SessionId,
) {
    let holder = connection.session.id();
    expect_one(rt, connection.session.waits(rt), waiter, holder);
}

/// Asks all to cancel with `connection`. Ends the test where not `waited` of them wait.
fn ask_all<B: Board<Part>, M: ManagerName, R: Abort>(
    rt: &R,
    connection: &mut Connection<B, M>,
    waited: u32,
) {
    assert_eq!(rt; connection.session.ask_all_to_cancel(), waited);
}

/// Has the first session of `pair` see how the second one waits for what it has, and end that wait as it ends
/// all.
pub fn end_all_waits<B: Board<Part>, M: ManagerName, R: Abort + Wait>(
    rt: &R,
    pair: Pair<B, M>,
) -> Pair<B, M> {
    let Pair { mut first, second } = pair;
    take(rt, &mut first, Mode::Exclusive);
    see_none(rt, &mut first);
    ask_all(rt, &mut first, 0);
    let waiting = find_still(rt, queue(rt, second, Mode::RowShare), false);
    see_one(rt, &mut first, waiting.waiting.id());
    ask_all(rt, &mut first, 1);
    let second = leave(rt, find_still(rt, waiting, true));
    see_none(rt, &mut first);
    give_back(rt, &mut first, Mode::Exclusive);
    Pair { first, second }
}
