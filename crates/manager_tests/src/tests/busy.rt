//! Slots that are found busy.

use super::answers::Answer;
use super::pair::Pair;
use super::races::see_nothing;
use super::sessions::{commit, try_fast};
use super::tasks::{Task, act_side_by_side};
use super::waits::{OWNER, TABLE, take};
use connections::{Connection, ManagerName};
use lock_manager::{Acquired, Board, Mode, Part, Refusal};
use std::process::Abort;
use std::sync::Wait;
use std::sync::atomic::{AtomicBool, Ordering};
use std::thread::Threads;

/// Whether `answer` says that the slots were found busy. Otherwise the mode was granted, or a strong one
/// counted.
fn is_busy<R: Abort>(rt: &R, answer: Answer) -> bool {
    match answer {
        Err(Refusal::Busy) => true,
        Ok(Acquired::Granted) | Err(Refusal::StrongCounted) => false,
        _ => panic!(rt; "answered otherwise"),
    }
}

/// Tries a weak mode by a slot with `connection`, and gives it back. Answers whether the lock of the slots
/// was found taken, which is not waited for.
fn find_busy<B: Board<Part>, M: ManagerName, R: Abort + Wait>(
    rt: &R,
    connection: &mut Connection<B, M>,
) -> bool {
    let answer = try_fast(connection, TABLE, Mode::AccessShare, OWNER);
    if is_busy(rt, answer) {
        return true;
    }
    commit(rt, connection);
    false
}

/// Tries weak modes by a slot with `connection` until the lock of its slots was found taken once, and sets
/// `is_seen` then.
pub fn try_until_busy<B: Board<Part>, M: ManagerName, R: Abort + Wait>(
    rt: &R,
    connection: &mut Connection<B, M>,
    is_seen: &AtomicBool,
) {
    for _ in rt.forever() {
        if find_busy(rt, connection) {
            is_seen.store(true, Ordering::SeqCst);
            return;
        }
    }
}

/// Takes a strong mode with `connection`, and gives it back. On the way the session has the slots' locks of
/// all sessions in hand in turn.
fn go_past_slots<B: Board<Part>, M: ManagerName, R: Abort + Wait>(
    rt: &R,
    connection: &mut Connection<B, M>,
) {
    take(rt, connection, Mode::Share);
    commit(rt, connection);
}

/// Takes strong modes with `connection` over and over, until `is_seen` is set.
pub fn take_until_seen<B: Board<Part>, M: ManagerName, R: Abort + Wait>(
    rt: &R,
    connection: &mut Connection<B, M>,
    is_seen: &AtomicBool,
) {
    for _ in rt.forever() {
        if is_seen.load(Ordering::SeqCst) {
            return;
        }
        go_past_slots(rt, connection);
    }
}

/// Has one session of `pair` go past the slots of the other, until the other one finds its slots busy. At the
/// end nothing is held.
pub fn find_slots_busy<
    B: Board<Part> + Send,
    M: ManagerName + Send,
    R: Abort + Threads + Wait + Sync,
>(rt: &R, pair: &mut Pair<B, M>) {
    act_side_by_side(rt, pair, Task::TryUntilBusy, Task::TakeUntilSeen, 0);
    see_nothing(rt, &mut pair.first);
}
