//! Cases of a wait: two sessions of which one waits for the other, on one thread and asleep in one of its
//! own.

use super::answers::{Answer, expect_acted, expect_answer, expect_seen, expect_within};
use super::pair::Pair;
use super::sessions::commit;
use super::tasks::{Task, act_side_by_side};
use super::waits::{OWNER, TABLE, ask, find_granted, find_still, give_back, leave, queue, take};
use connections::{Connection, ManagerName, WaitingConnection};
use lock_manager::{Acquired, Asked, Board, Call, Mode, Part, Refusal};
use std::process::Abort;
use std::sync::Wait;
use std::thread::Threads;

/// Takes the table in `ShareLock` with `connection`, which looks `looks` times at its wait at most. Ends the
/// test where that isn't answered `expected`.
fn acquire_in_looks<B: Board<Part>, M: ManagerName, R: Abort + Wait>(
    rt: &R,
    connection: &mut Connection<B, M>,
    looks: u32,
    expected: Result<Option<Acquired>, Refusal>,
) {
    let mut left = looks;
    let answer = connection
        .session
        .acquire_while(rt, TABLE, Mode::Share, OWNER, || {
            left = left.saturating_sub(1);
            left != 0
        });
    expect_within(rt, answer, expected);
}

/// Has the second session of `pair` give up its waits, after one look and after a hundred. They leave
/// nothing. What need not wait is had at once.
pub fn give_up<B: Board<Part>, M: ManagerName, R: Abort + Wait>(rt: &R, pair: &mut Pair<B, M>) {
    let Pair { first, second } = pair;
    take(rt, first, Mode::AccessExclusive);
    acquire_in_looks(rt, second, 1, Ok(None));
    acquire_in_looks(rt, second, 100, Ok(None));
    assert!(rt; second.session.held(TABLE).mask() == 0);
    assert_eq!(rt; second.session.strong_count(TABLE.strong_index()), 1);
    give_back(rt, first, Mode::AccessExclusive);
    acquire_in_looks(rt, second, 1, Ok(Some(Acquired::Granted)));
    acquire_in_looks(rt, second, 0, Ok(Some(Acquired::AlreadyHeld)));
    second.session.abort(rt);
}

/// Waits until `waiting` is over. Ends the test where that isn't answered `expected`.
fn wait_as<B: Board<Part>, M: ManagerName, R: Abort + Wait>(
    rt: &R,
    waiting: WaitingConnection<B, M>,
    expected: Answer,
) -> Connection<B, M> {
    let (connection, answer) = waiting.wait(rt).into_parts();
    expect_answer(rt, answer, expected);
    connection
}

/// Has the second session of `pair` wait, be seen and asked to cancel by the first one, which holds, and
/// leave. A request to cancel that came before the wait does nothing.
pub fn leave_as_asked<B: Board<Part>, M: ManagerName, R: Abort + Wait>(
    rt: &R,
    pair: Pair<B, M>,
) -> Pair<B, M> {
    let Pair { mut first, second } = pair;
    let number = second.session.id();
    take(rt, &mut first, Mode::Exclusive);
    ask(rt, &mut first, number, Asked::NotWaiting);
    let waiting = find_still(rt, queue(rt, second, Mode::RowShare), false);
    see_waiters(rt, &mut first, Mode::Exclusive);
    ask(rt, &mut first, number, Asked::Waiting);
    let second = leave(rt, find_still(rt, waiting, true));
    give_back(rt, &mut first, Mode::Exclusive);
    Pair { first, second }
}

/// Sees that somebody waits for the table, in a mode that conflicts with `mode`, which `connection` has.
fn see_waiters<B: Board<Part>, M: ManagerName, R: Abort + Wait>(
    rt: &R,
    connection: &mut Connection<B, M>,
    mode: Mode,
) {
    expect_seen(
        rt,
        connection.session.has_waiters(rt, TABLE, mode),
        Ok(true),
    );
    let not_held = connection.session.has_waiters(rt, TABLE, Mode::AccessShare);
    expect_seen(rt, not_held, Err(Refusal::NotHeld));
}

/// Has the second session of `pair` cancel its wait after that was granted: it has the mode.
pub fn cancel_too_late<B: Board<Part>, M: ManagerName, R: Abort + Wait>(
    rt: &R,
    pair: Pair<B, M>,
) -> Pair<B, M> {
    let Pair { mut first, second } = pair;
    let number = second.session.id();
    take(rt, &mut first, Mode::Share);
    let waiting = queue(rt, second, Mode::AccessExclusive);
    give_back(rt, &mut first, Mode::Share);
    ask(rt, &mut first, number, Asked::NotWaiting);
    let (mut second, answer) = waiting.cancel(rt).into_parts();
    expect_answer(rt, answer, Ok(Acquired::Granted));
    give_back(rt, &mut second, Mode::AccessExclusive);
    Pair { first, second }
}

/// Has the second session of `pair` look at its wait after that was granted: it finds the grant.
pub fn look_too_late<B: Board<Part>, M: ManagerName, R: Abort + Wait>(
    rt: &R,
    pair: Pair<B, M>,
) -> Pair<B, M> {
    let Pair { mut first, second } = pair;
    take(rt, &mut first, Mode::AccessExclusive);
    let waiting = queue(rt, second, Mode::AccessShare);
    give_back(rt, &mut first, Mode::AccessExclusive);
    let mut second = find_granted(rt, waiting);
    give_back(rt, &mut second, Mode::AccessShare);
    Pair { first, second }
}

/// Has the second session of `pair` go to sleep after it was asked to cancel: its wait is over at once.
pub fn wait_as_asked<B: Board<Part>, M: ManagerName, R: Abort + Wait>(
    rt: &R,
    pair: Pair<B, M>,
) -> Pair<B, M> {
    let Pair { mut first, second } = pair;
    let number = second.session.id();
    take(rt, &mut first, Mode::Exclusive);
    let waiting = queue(rt, second, Mode::Share);
    ask(rt, &mut first, number, Asked::Waiting);
    let second = wait_as(rt, waiting, Err(Refusal::Cancelled));
    give_back(rt, &mut first, Mode::Exclusive);
    Pair { first, second }
}

/// Has the second session of `pair` go to sleep after its wait was granted: the wait is over at once.
pub fn wait_for_nothing<B: Board<Part>, M: ManagerName, R: Abort + Wait>(
    rt: &R,
    pair: Pair<B, M>,
) -> Pair<B, M> {
    let Pair { mut first, second } = pair;
    take(rt, &mut first, Mode::Exclusive);
    let waiting = queue(rt, second, Mode::Share);
    give_back(rt, &mut first, Mode::Exclusive);
    let mut second = wait_as(rt, waiting, Ok(Acquired::Granted));
    give_back(rt, &mut second, Mode::Share);
    Pair { first, second }
}

/// Has a session sleep in its thread until the other one of `pair`, in another thread, gives back, or asks it
/// to cancel where `asks`.
pub fn sleep_in_a_thread<
    B: Board<Part> + Send,
    M: ManagerName + Send,
    R: Abort + Threads + Wait + Sync,
>(rt: &R, pair: &mut Pair<B, M>, asks: bool) {
    let number = pair.second.session.id();
    let (task, expected) = if asks {
        (Task::AskOnceAwaited(number), Err(Refusal::Cancelled))
    } else {
        let gives_back = Task::GiveBackOnceAwaited(number, Mode::AccessExclusive);
        (gives_back, Ok(Acquired::Granted))
    };
    take(rt, &mut pair.first, Mode::AccessExclusive);
    let waits = Task::Makes(Call::Acquire(TABLE, Mode::AccessShare, OWNER));
    let ended = act_side_by_side(rt, pair, task, waits, 0);
    expect_acted(rt, ended.of_second, expected);
    commit(rt, &mut pair.second);
    commit(rt, &mut pair.first);
}
