//! The shifts of a day: each of the staff comes to the server with a connection of its own, works in a thread
//! of its own, and goes, while the others work.

use crate::bank::{Bank, DATABASE};
use crate::tellers::{migrate, serve};
use crate::watch::{Watch, keep_watch};
use connections::{Connection, ManagerName, Pool, connect, leave};
use lock_manager::{Board, Desk, OwnSession, Part, Refusal};
use std::sync::{Mutex, Wait};
use std::thread::{Threads, for_each_mut, join};
use std::time::Clock;

/// How many threads of a shift make transfers. One more alters the table.
const TELLERS: usize = 4;

/// How many threads of a shift work. One more watches them.
const STAFF: usize = TELLERS + 1;

/// What there is to do in a shift.
#[derive(Clone, Copy)]
pub struct Shift {
    /// How many transfers a teller makes.
    pub transfers: u32,
    /// How many times the migration alters the table.
    pub alterations: u32,
    /// After how many looks of the watchdog the bank shuts down, even while threads of the shift work. `None`
    /// where it doesn't shut down in the shift.
    pub closes_after: Option<u32>,
}

/// Has the threads of `bank` do the work of `shift`, each with a session of `pool`, while a watchdog watches
/// them, whose session is there before they come. Refused where one of them had no session; the others have
/// worked all the same.
pub fn work<
    B: Board<Part> + Send,
    D: Desk<OwnSession<Part, B>> + Send,
    M: ManagerName + Send,
    R: Threads + Wait + Clock + Sync,
>(
    rt: &R,
    pool: &Mutex<Pool<B, D, M>>,
    bank: &Bank,
    watch: &Watch,
    shift: Shift,
) -> Result<(), Refusal> {
    let mut watchdog = connect(rt, pool, DATABASE)?;
    watch.begin(STAFF as u64);
    let worked = work_watched(rt, pool, bank, watch, shift, &mut watchdog);
    leave(rt, pool, watchdog);
    worked
}

/// Has the staff work beside `watchdog`, to whose thread its connection is lent.
fn work_watched<
    B: Board<Part> + Send,
    D: Desk<OwnSession<Part, B>> + Send,
    M: ManagerName + Send,
    R: Threads + Wait + Clock + Sync,
>(
    rt: &R,
    pool: &Mutex<Pool<B, D, M>>,
    bank: &Bank,
    watch: &Watch,
    shift: Shift,
    watchdog: &mut Connection<B, M>,
) -> Result<(), Refusal> {
    let ((), worked) = join(
        rt,
        || keep_watch(rt, pool, watch, shift.closes_after, watchdog),
        || staff_works(rt, pool, bank, watch, shift),
    );
    worked
}

/// Runs the staff of `shift`, each of it in a thread of its own.
fn staff_works<
    B: Board<Part> + Send,
    D: Desk<OwnSession<Part, B>> + Send,
    M: ManagerName + Send,
    R: Threads + Wait + Clock + Sync,
>(
    rt: &R,
    pool: &Mutex<Pool<B, D, M>>,
    bank: &Bank,
    watch: &Watch,
    shift: Shift,
) -> Result<(), Refusal> {
    let mut refusals = [None; STAFF];
    for_each_mut(
        rt,
        refusals.as_mut_slice(),
        STAFF,
        &|place, refusal| *refusal = come_and_work(rt, pool, bank, watch, shift, place).err(),
    );
    for refusal in refusals {
        if let Some(refusal) = refusal {
            return Err(refusal);
        }
    }
    Ok(())
}

/// Comes to the server, plays the part at `place` of `shift`, and goes.
fn come_and_work<B: Board<Part>, D: Desk<OwnSession<Part, B>>, M: ManagerName, R: Wait + Clock>(
    rt: &R,
    pool: &Mutex<Pool<B, D, M>>,
    bank: &Bank,
    watch: &Watch,
    shift: Shift,
    place: usize,
) -> Result<(), Refusal> {
    match connect(rt, pool, DATABASE) {
        Ok(mut connection) => {
            play_part(rt, bank, watch, shift, place, &mut connection);
            leave(rt, pool, connection);
            watch.leave();
            Ok(())
        }
        Err(refusal) => {
            watch.leave();
            Err(refusal)
        }
    }
}

/// Plays the part at `place` of `shift` with `connection`: a teller's, or the migration's.
fn play_part<B: Board<Part>, M: ManagerName, R: Wait + Clock>(
    rt: &R,
    bank: &Bank,
    watch: &Watch,
    shift: Shift,
    place: usize,
    connection: &mut Connection<B, M>,
) {
    if place < TELLERS {
        serve(rt, bank, watch, connection, shift.transfers);
    } else {
        migrate(rt, bank, watch, connection, shift.alterations);
    }
}
