//! A day of the bank: shifts of work, connections that come and go, and a shut-down in the middle of a busy
//! shift.

use crate::bank::Bank;
use crate::report::Report;
use crate::rush::{come_and_go, rush};
use crate::shifts::{Shift, work};
use crate::watch::Watch;
use connections::{ManagerName, Pool};
use lock_manager::{Board, Desk, MOST_SESSIONS, OwnSession, Part, Refusal};
use std::alloc::Global;
use std::sync::{Mutex, Wait};
use std::thread::Threads;
use std::time::Clock;

/// How many sessions the bank's server has: as many as a manager can have.
pub const SESSIONS: u32 = MOST_SESSIONS;

/// How many shifts of a day are worked to their end.
const SHIFTS: u32 = 10;

/// What there is to do in each shift that is worked to its end.
const SHIFT: Shift = Shift {
    transfers: 20,
    alterations: 1,
    closes_after: None,
};

/// The last shift, which has no end of its own: after some looks of its watchdog the bank shuts down.
const LAST_SHIFT: Shift = Shift {
    transfers: u32::MAX,
    alterations: u32::MAX,
    closes_after: Some(10),
};

/// Plays a day of the bank with sessions of `pool`.
pub fn live_through<
    B: Board<Part> + Send,
    D: Desk<OwnSession<Part, B>> + Send,
    M: ManagerName + Send,
    R: Threads + Wait + Clock + Sync,
>(rt: &R, alloc: Global, pool: &Mutex<Pool<B, D, M>>) -> Result<Report, Refusal> {
    let bank = Bank::new();
    let opened_with = bank.sum();
    let watch = Watch::new();
    for _ in 0..SHIFTS {
        work(rt, pool, &bank, &watch, SHIFT)?;
    }
    let unserved = come_and_go(rt, pool);
    let (turned_away, handed_on) = rush(rt, alloc, pool)?;
    work(rt, pool, &bank, &watch, LAST_SHIFT)?;
    let audit = pool.lock(rt).audit(rt, alloc)?;
    Ok(Report {
        opened_with,
        sum: bank.sum(),
        unserved,
        turned_away,
        handed_on,
        stopped: watch.stopped(),
        audit,
    })
}
