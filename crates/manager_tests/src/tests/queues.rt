//! Sessions in one queue, each asleep in a thread of its own, and each woken by the one before it, or all by
//! one release.

use super::answers::expect_granted;
use super::sessions::acquire;
use super::side_by_side::{Play, play_side_by_side};
use super::waits::{OWNER, TABLE, give_back, see_wait, take};
use super::wakes::pause;
use connections::{Connection, ManagerName};
use lock_manager::{Board, Mode, Part, SessionId};
use std::process::Abort;
use std::sync::Wait;
use std::sync::atomic::{AtomicBool, AtomicU64, Ordering};
use std::thread;
use std::thread::Threads;
use std::time::Clock;

/// How many sessions sleep in the queue, beside the one that holds the table.
pub const MANY: u32 = 32;

/// What the threads share: the mode that all wait for, whether the table is taken, and how many sessions were
/// woken.
#[derive(Drop)]
struct Tally {
    mode: Mode,
    /// Whether the first session has the table.
    held: AtomicBool,
    woken: AtomicU64,
}

impl Tally {
    /// Counts that the session numbered `number` was woken. Where each is woken by the one before it, ends
    /// the test unless `number` is how many were woken so far: the holder has the number 0, and the queue is
    /// in the order of the numbers.
    fn wake<R: Abort>(&self, rt: &R, number: SessionId) {
        let before = self.woken.fetch_add(1, Ordering::SeqCst);
        if self.mode == Mode::AccessExclusive {
            assert_eq!(rt; before.saturating_add(1), u64::from(number.number()));
        }
    }

    /// Waits until the first session has the table.
    fn wait_for_holder<R: Wait>(&self, rt: &R) {
        for _ in rt.forever() {
            if self.held.load(Ordering::SeqCst) {
                break;
            }
            thread::yield_now();
        }
    }

    /// Ends the test unless `number` sessions were woken.
    fn expect<R: Abort>(&self, rt: &R, number: u32) {
        assert_eq!(rt; self.woken.load(Ordering::SeqCst), u64::from(number));
    }
}

/// Waits until it is the turn of `connection` to join the queue: once the session with the number before its
/// own waits. The first one to join does so after the holder, which `tally` shows.
fn see_turn<B: Board<Part>, M: ManagerName, R: Wait>(
    rt: &R,
    tally: &Tally,
    connection: &mut Connection<B, M>,
) {
    let number = connection.session.id().number();
    if number < 2 {
        tally.wait_for_holder(rt);
        return;
    }
    if let Some(before) = SessionId::new(number - 1) {
        see_wait(rt, connection, before);
    }
}

/// Has `connection` join the queue in its turn, sleep until the wait is granted, and give the mode back, to
/// the next one if that waits still.
fn sleep_and_pass_on<B: Board<Part>, M: ManagerName, R: Abort + Wait>(
    rt: &R,
    tally: &Tally,
    connection: &mut Connection<B, M>,
) {
    see_turn(rt, tally, connection);
    let answer = acquire(rt, connection, TABLE, tally.mode, OWNER);
    expect_granted(rt, answer, TABLE, tally.mode);
    tally.wake(rt, connection.session.id());
    give_back(rt, connection, tally.mode);
}

/// Takes the table first with `connection`, and gives it back, which lets the others go, once all sleep, none
/// of whom is woken.
fn release_once_asleep<B: Board<Part>, M: ManagerName, R: Abort + Wait>(
    rt: &R,
    tally: &Tally,
    connection: &mut Connection<B, M>,
) {
    take(rt, connection, Mode::AccessExclusive);
    tally.held.store(true, Ordering::SeqCst);
    if let Some(last) = SessionId::new(MANY as u16) {
        see_wait(rt, connection, last);
    }
    pause();
    tally.expect(rt, 0);
    give_back(rt, connection, Mode::AccessExclusive);
}

impl Play for Tally {
    /// Plays with `connection` the part of the holder, or of one that sleeps.
    fn play<B: Board<Part>, M: ManagerName, R: Abort + Clock + Wait>(
        &self,
        rt: &R,
        connection: &mut Connection<B, M>,
    ) {
        if connection.session.id().number() == 0 {
            release_once_asleep(rt, self, connection);
        } else {
            sleep_and_pass_on(rt, self, connection);
        }
    }
}

/// Has one of `connections` take the table and all others wait for it in `mode`. Where that is
/// `AccessExclusiveLock` they are woken one by one, in the order of their queue, and where it is
/// `AccessShareLock` all by one release.
pub fn wake_sleepers<
    B: Board<Part> + Send,
    M: ManagerName + Send,
    R: Abort + Clock + Threads + Wait + Sync,
>(rt: &R, connections: &mut [Connection<B, M>], mode: Mode) {
    let tally = Tally {
        mode,
        held: AtomicBool::new(false),
        woken: AtomicU64::new(0),
    };
    play_side_by_side(rt, &tally, connections);
    tally.expect(rt, MANY);
}
