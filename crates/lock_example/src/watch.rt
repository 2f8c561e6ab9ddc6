//! The watchdog, which ends deadlocks, and asks those to cancel who wait too long.

ghost use Rattle.std.specs.Prelude.{◌<◌};

use crate::deadlocks::victim_of;
use crate::shut_down::shut_down;
use connections::{Connection, Look, ManagerName, Pool, cancel, look_at_waits};
use lock_manager::{Board, Desk, MOST_SESSIONS, OwnSession, Part, SessionId};
use std::sync::atomic::{AtomicBool, AtomicU64, Ordering};
use std::sync::{Mutex, Wait};
use std::thread;
use std::time::{Clock, Duration};

/// How many milliseconds the watchdog sleeps between two looks. Who is in the same wait at two looks has
/// waited too long.
const PAUSE: u64 = 2;

/// The length of a list that has a place for each session number.
const NUMBERS: usize = MOST_SESSIONS as usize;

/// What the threads of a day show the watchdog.
#[derive(Drop)]
pub struct Watch {
    /// For each session how many times it has begun or ended a wait: where the number is odd, the session is
    /// in a wait.
    waits: [AtomicU64; NUMBERS],
    /// How many threads of the bank still work.
    working: AtomicU64,
    /// Whether the bank shuts down.
    closed: AtomicBool,
    /// How many threads have stopped working since the bank began to shut down.
    stopped: AtomicU64,
}

impl Watch {
    /// A watch in which nobody waits or works.
    pub fn new() -> Watch {
        Watch {
            waits: std::array::from_fn(|_| AtomicU64::new(0)),
            working: AtomicU64::new(0),
            closed: AtomicBool::new(false),
            stopped: AtomicU64::new(0),
        }
    }

    /// Sets the number of threads that work to `working`.
    pub fn begin(&self, working: u64) {
        self.working.store(working, Ordering::SeqCst);
    }

    /// Notes that `session` begins a wait, or ends it.
    pub fn turn(&self, session: SessionId) {
        if let Some(waits) = self.waits.get(usize::from(session.number())) {
            waits.fetch_add(1, Ordering::SeqCst);
        }
    }

    /// Notes that a thread works no more, since its work is done or the bank shuts down.
    pub fn leave(&self) {
        if self.is_closed() {
            self.stopped.fetch_add(1, Ordering::SeqCst);
        }
        self.working.fetch_sub(1, Ordering::SeqCst);
    }

    /// Whether all threads have stopped working.
    pub fn is_over(&self) -> bool {
        self.working.load(Ordering::SeqCst) == 0
    }

    /// Says that the bank shuts down: nobody is to begin another transaction.
    pub fn close(&self) {
        self.closed.store(true, Ordering::SeqCst);
    }

    /// Whether the bank shuts down.
    pub fn is_closed(&self) -> bool {
        self.closed.load(Ordering::SeqCst)
    }

    /// How many threads have stopped working since the bank began to shut down.
    pub fn stopped(&self) -> u64 {
        self.stopped.load(Ordering::SeqCst)
    }

    /// Whether the session numbered `place` is in a wait in which it was at the look before too, by `seen`,
    /// which keeps what is seen now for the next look.
    fn waits_too_long(&self, place: usize, seen: &mut [u64; NUMBERS]) -> bool
        requires { place < 1024 }
    {
        let now = self.waits[place].load(Ordering::SeqCst);
        let is_long = now % 2 == 1 && now == seen[place];
        seen[place] = now;
        is_long
    }
}

/// Looks again and again at who waits, with `connection`, until no thread of `watch` works any more. Asks
/// those who wait in a circle, or too long, to cancel. After as many looks as `closes_after` says, if it says
/// a number, shuts the bank down.
pub fn keep_watch<B: Board<Part>, D: Desk<OwnSession<Part, B>>, M: ManagerName, R: Wait + Clock>(
    rt: &R,
    pool: &Mutex<Pool<B, D, M>>,
    watch: &Watch,
    closes_after: Option<u32>,
    connection: &mut Connection<B, M>,
) {
    let mut seen = [0; NUMBERS];
    let mut looks = 0u32;
    'looks: for _ in rt.forever() {
        if watch.is_over() {
            return;
        }
        if closes_after == Some(looks) {
            shut_down(rt, watch, connection);
            return;
        }
        // Without memory for a look nobody is asked.
        if let Ok(look) = look_at_waits(rt, pool, connection) {
            break_circle(rt, pool, connection, &look);
            end_long_waits(rt, pool, watch, connection, &look, &mut seen);
        }
        looks = looks.saturating_add(1);
        thread::sleep(rt, Duration::from_millis(PAUSE));
    }
}

/// Asks one session of a circle of waits to cancel, if `look` shows such a circle.
fn break_circle<B: Board<Part>, D: Desk<OwnSession<Part, B>>, M: ManagerName, R: Wait>(
    rt: &R,
    pool: &Mutex<Pool<B, D, M>>,
    connection: &mut Connection<B, M>,
    look: &Look,
) {
    if let Some(victim) = victim_of(look.waits.as_slice()) {
        let _asked = cancel(rt, pool, connection, look.life_of(victim));
    }
}

/// Asks those to cancel who have waited since the look before, by `seen`. `Asked::Waiting` says that a
/// session waited as it was asked, and no more: where it is granted before it has cancelled, it has the lock.
fn end_long_waits<B: Board<Part>, D: Desk<OwnSession<Part, B>>, M: ManagerName, R: Wait>(
    rt: &R,
    pool: &Mutex<Pool<B, D, M>>,
    watch: &Watch,
    connection: &mut Connection<B, M>,
    look: &Look,
    seen: &mut [u64; NUMBERS],
) {
    'numbers: for number in 0..MOST_SESSIONS as u16 {
        if watch.waits_too_long(usize::from(number), seen) {
            if let Some(session) = SessionId::new(number) {
                let _asked = cancel(rt, pool, connection, look.life_of(session));
            }
        }
    }
}
