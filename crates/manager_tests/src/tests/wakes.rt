//! Sessions that sleep until another one lets them go or asks them to cancel, and wakes them.

use super::answers::{Answer, expect_answer};
use super::audits::close_counted;
use super::desk::{append, open};
use super::sessions::acquire;
use super::waits::{OWNER, TABLE, ask, expect_gone, give_back, leave, queue, see_wait, take};
use connections::{Connection, DeskOf, ManagerName, WaitingConnection};
use lock_manager::{Acquired, Asked, Board, Desk, Mode, OwnSession, Part, Refusal, SessionId};
use std::alloc::Global;
use std::process::Abort;
use std::sync::Wait;
use std::thread;
use std::thread::{Threads, join};

/// How often a processor is left to others in a pause.
const PAUSE: u32 = 20_000;

/// Leaves the processor to others, so that a thread that was about to sleep does so.
pub fn pause() {
    for _ in 0..PAUSE {
        thread::yield_now();
    }
}

/// Sees with `connection` that the one numbered `number` waits, and gives it the time to sleep.
fn see_asleep<B: Board<Part>, M: ManagerName, R: Wait>(
    rt: &R,
    connection: &mut Connection<B, M>,
    number: SessionId,
) {
    see_wait(rt, connection, number);
    pause();
}

/// Asks for the table with `connection`, and sleeps until the wait is over. Ends the test where that isn't
/// answered `expected`.
fn sleep_until<B: Board<Part>, M: ManagerName, R: Abort + Wait>(
    rt: &R,
    connection: &mut Connection<B, M>,
    expected: Answer,
) {
    let answer = acquire(rt, connection, TABLE, Mode::AccessShare, OWNER);
    expect_answer(rt, answer, expected);
}

/// Takes the wait `ahead`, which is lent, out of the queue, once the session numbered `number` sleeps after
/// it in the queue.
fn leave_once_asleep<B: Board<Part>, M: ManagerName, R: Abort + Wait>(
    rt: &R,
    holder: &mut Connection<B, M>,
    ahead: &mut Option<WaitingConnection<B, M>>,
    number: SessionId,
) -> Connection<B, M> {
    see_asleep(rt, holder, number);
    match ahead.take() {
        Some(waiting) => leave(rt, waiting),
        None => panic!(rt; "no wait"),
    }
}

/// Has the session `ahead` in the queue leave it, and the one `behind` it, who sleeps in a thread of its own,
/// be granted.
fn leave_side_by_side<
    B: Board<Part> + Send,
    M: ManagerName + Send,
    R: Abort + Threads + Wait + Sync,
>(
    rt: &R,
    holder: &mut Connection<B, M>,
    ahead: &mut Option<WaitingConnection<B, M>>,
    behind: &mut Connection<B, M>,
    number: &SessionId,
) -> Connection<B, M> {
    let (left, ()) = join(
        rt,
        || leave_once_asleep(rt, holder, ahead, *number),
        || sleep_until(rt, behind, Ok(Acquired::Granted)),
    );
    left
}

/// Has three sessions of `desk` want one table: the first one holds it, the second one waits for a mode that
/// conflicts, and the third one sleeps, since only that wait is in its way. The wait is cancelled, and the
/// third session goes on.
pub fn let_go_by_a_cancel<
    B: Board<Part> + Send,
    D: Desk<OwnSession<Part, B>>,
    M: ManagerName + Send,
    R: Abort + Threads + Wait + Sync,
>(rt: &R, alloc: Global, desk: &mut DeskOf<B, D, M>) {
    let mut holder = open(rt, desk);
    take(rt, &mut holder, Mode::AccessShare);
    let mut ahead = Some(queue(rt, open(rt, desk), Mode::AccessExclusive));
    let mut behind = open(rt, desk);
    let number = behind.session.id();
    let left = leave_side_by_side(rt, &mut holder, &mut ahead, &mut behind, &number);
    expect_gone(rt, ahead);
    give_back(rt, &mut behind, Mode::AccessShare);
    give_back(rt, &mut holder, Mode::AccessShare);
    let mut connections = Vec::new(alloc);
    append(rt, &mut connections, holder);
    append(rt, &mut connections, left);
    append(rt, &mut connections, behind);
    close_counted(rt, alloc, desk, connections);
}

/// Asks the session numbered `number`, with `connection`, to cancel once it sleeps.
fn ask_once_asleep<B: Board<Part>, M: ManagerName, R: Abort + Wait>(
    rt: &R,
    connection: &mut Connection<B, M>,
    number: SessionId,
) {
    see_asleep(rt, connection, number);
    ask(rt, connection, number, Asked::Waiting);
}

/// Has `holder` ask `sleeper`, who sleeps in a thread of its own, to cancel, and so its wait is over.
fn ask_side_by_side<B: Board<Part> + Send, M: ManagerName + Send, R: Abort + Threads + Wait + Sync>(
    rt: &R,
    holder: &mut Connection<B, M>,
    sleeper: &mut Connection<B, M>,
    number: &SessionId,
) {
    join(
        rt,
        || ask_once_asleep(rt, holder, *number),
        || sleep_until(rt, sleeper, Err(Refusal::Cancelled)),
    );
}

/// Has a session of `desk` take the table, and one that sleeps in the queue for it be asked to cancel.
pub fn woken_as_asked<
    B: Board<Part> + Send,
    D: Desk<OwnSession<Part, B>>,
    M: ManagerName + Send,
    R: Abort + Threads + Wait + Sync,
>(rt: &R, alloc: Global, desk: &mut DeskOf<B, D, M>) {
    let mut holder = open(rt, desk);
    take(rt, &mut holder, Mode::AccessExclusive);
    let mut sleeper = open(rt, desk);
    let number = sleeper.session.id();
    ask_side_by_side(rt, &mut holder, &mut sleeper, &number);
    give_back(rt, &mut holder, Mode::AccessExclusive);
    let mut connections = Vec::new(alloc);
    append(rt, &mut connections, holder);
    append(rt, &mut connections, sleeper);
    close_counted(rt, alloc, desk, connections);
}
