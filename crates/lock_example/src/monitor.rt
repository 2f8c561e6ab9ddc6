//! A monitor: a thread that logs who waits, for what and for whom, as `log_lock_waits` does in the server.

use crate::bank::{ACCOUNTS, DATABASE};
use connections::{Connection, ManagerName, Pool, connect, leave};
use lock_manager::{
    Blocker, Board, Desk, MOST_SESSIONS, Mode, OwnSession, Owner, Part, QueueRow, Started, TableRow,
};
use std::io;
use std::sync::atomic::{AtomicBool, Ordering};
use std::sync::{Mutex, Wait};
use std::thread::{self, Threads, join};
use std::time::{Clock, Duration};

/// How many milliseconds the monitor sleeps between two looks.
const PAUSE: u64 = 5;

/// The length of a list that has a place for each session number.
const NUMBERS: usize = MOST_SESSIONS as usize;

/// Looks again and again at who waits, and logs each wait once, until `is_over`. `monitor` is a connection
/// of the monitor's own.
pub fn keep_logging<B: Board<Part>, M: ManagerName, R: Wait + Clock + Print>(
    rt: &R,
    monitor: &mut Connection<B, M>,
    is_over: &AtomicBool,
) -> anyhow::Result<()> {
    let mut logged = [false; NUMBERS];
    'looks: for _ in rt.forever() {
        log_waits(rt, monitor, &mut logged)?;
        if is_over.load(Ordering::SeqCst) {
            break;
        }
        thread::sleep(rt, Duration::from_millis(PAUSE));
    }
    Ok(())
}

/// Logs by `monitor` each session that waits and isn't among `logged`, the ones that waited at the look
/// before. Puts those that wait now into `logged`.
fn log_waits<B: Board<Part>, M: ManagerName, R: Wait + Print>(
    rt: &R,
    monitor: &mut Connection<B, M>,
    logged: &mut [bool; NUMBERS],
) -> anyhow::Result<()> {
    let listing = monitor.session.list(rt)?;
    let mut waits = [false; NUMBERS];
    'rows: for row in &listing.table {
        let number = usize::from(row.session.number());
        if !row.granted {
            if !logged[number] {
                log_wait(rt, monitor, row)?;
            }
            waits[number] = true;
        }
    }
    *logged = waits;
    Ok(())
}

/// Logs by `monitor` the wait of `row`: who is in its way, and the queue in which it is. Nobody is in its way
/// where the wait has ended since the listing.
fn log_wait<B: Board<Part>, M: ManagerName, R: Wait + Print>(
    rt: &R,
    monitor: &mut Connection<B, M>,
    row: &TableRow,
) -> anyhow::Result<()> {
    let blockers = monitor.session.blockers(rt, row.tag, row.session)?;
    let queue = monitor.session.queue(rt, row.tag)?;
    if !blockers.is_empty() {
        print_wait(rt, row, blockers.as_slice(), queue.as_slice())?;
    }
    Ok(())
}

/// Prints the line of the wait of `row`, with those in its way, `blockers`, and its `queue`.
fn print_wait<R: Print>(
    rt: &R,
    row: &TableRow,
    blockers: &[Blocker],
    queue: &[QueueRow],
) -> io::Result<()> {
    print!(rt; "{} waits for {} on {}:", row.session, row.mode, row.tag)?;
    for (place, blocker) in blockers.iter().enumerate() {
        let before = if place == 0 { " " } else { ", " };
        print!(rt;
            "{before}{} {} {}",
            blocker.session, blocker.how, blocker.mode
        )?;
    }
    for (place, waiter) in queue.iter().enumerate() {
        let before = if place == 0 { "; queue " } else { ", " };
        print!(rt; "{before}{}", waiter.session)?;
    }
    println!(rt;)
}

/// The modes that are asked for after the reader has the accounts, in their order: an ALTER, a read and a
/// write.
static COMING: [Mode; 3] = [Mode::AccessExclusive, Mode::AccessShare, Mode::RowExclusive];

/// How many sessions the server has: one that reads, the monitor's, and those that come.
pub const SESSIONS: u32 = 5;

/// Has a connection of `pool` read the accounts, and a monitor log the waits of those that come after it.
pub fn show<
    B: Board<Part> + Send,
    D: Desk<OwnSession<Part, B>>,
    M: ManagerName + Send,
    R: Threads + Wait + Clock + Print + Sync,
>(rt: &R, pool: &Mutex<Pool<B, D, M>>) -> anyhow::Result<()> {
    let mut reader = connect(rt, pool, DATABASE)?;
    let read = reader
        .session
        .try_lock(rt, ACCOUNTS, Mode::AccessShare, Owner::Transaction);
    let watched = watch(rt, pool);
    leave(rt, pool, reader);
    read?;
    watched
}

/// Has the monitor's connection come to `pool`, log the waits of those that come after it, and go.
fn watch<
    B: Board<Part> + Send,
    D: Desk<OwnSession<Part, B>>,
    M: ManagerName + Send,
    R: Threads + Wait + Clock + Print + Sync,
>(rt: &R, pool: &Mutex<Pool<B, D, M>>) -> anyhow::Result<()> {
    let mut monitor = connect(rt, pool, DATABASE)?;
    let logged = come(rt, pool, &mut monitor, COMING.as_slice());
    leave(rt, pool, monitor);
    logged
}

/// Has a connection of `pool` for each of `modes` ask for the accounts, one after the other, and wait. Once
/// all wait, `monitor` looks.
fn come<
    B: Board<Part> + Send,
    D: Desk<OwnSession<Part, B>>,
    M: ManagerName + Send,
    R: Threads + Wait + Clock + Print + Sync,
>(
    rt: &R,
    pool: &Mutex<Pool<B, D, M>>,
    monitor: &mut Connection<B, M>,
    modes: &[Mode],
) -> anyhow::Result<()> {
    let Some((mode, others)) = modes.split_first() else {
        return log_beside(rt, monitor);
    };
    let connection = connect(rt, pool, DATABASE)?;
    match connection.start(rt, ACCOUNTS, *mode, Owner::Transaction) {
        Started::Queued(waiting) => {
            let logged = come(rt, pool, monitor, others);
            let (connection, _) = waiting.cancel(rt).into_parts();
            leave(rt, pool, connection);
            logged
        }
        Started::Granted(connection) | Started::AlreadyHeld(connection) => {
            leave(rt, pool, connection);
            Ok(())
        }
        Started::Refused(connection, refusal) => {
            leave(rt, pool, connection);
            Err(refusal.into())
        }
    }
}

/// Runs `monitor` in a thread of its own while the server goes on in this one.
fn log_beside<
    B: Board<Part> + Send,
    M: ManagerName + Send,
    R: Threads + Wait + Clock + Print + Sync,
>(rt: &R, monitor: &mut Connection<B, M>) -> anyhow::Result<()> {
    let is_over = AtomicBool::new(false);
    let (logged, ()) = join(
        rt,
        || keep_logging(rt, monitor, &is_over),
        || go_on(rt, &is_over),
    );
    logged
}

/// Goes on as a server does while its monitor looks, for as long as some of its looks take, and sets
/// `is_over`, which ends the monitor.
fn go_on<R: Wait + Clock>(rt: &R, is_over: &AtomicBool) {
    thread::sleep(rt, Duration::from_millis(4 * PAUSE));
    is_over.store(true, Ordering::SeqCst);
}
