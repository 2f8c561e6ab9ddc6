//! The rounds of a race for a lock, which two threads count together: one holds it for a while, and the other
//! one comes for it.

use std::process::Abort;
use std::sync::atomic::{AtomicU64, Ordering};
use std::thread::{self, sleep};
use std::time::{Clock, Duration};

/// How many rounds two threads have each time that they begin.
pub const ROUNDS: u64 = 8;

/// How often a session looks for the other one before it leaves its processor between looks. A session that
/// sleeps for a lock has it later than after this many looks, and one that attempts it once more has it
/// sooner.
const SOON: u64 = 4_000;

/// How often a session looks before it sleeps between two looks.
const LATE: u64 = 8_000;

/// How often a session sleeps, for `PAUSE` milliseconds each time, before it gives up.
const PAUSES: u32 = 2_000;

/// For how many milliseconds a session sleeps between two looks.
const PAUSE: u64 = 10;

/// How many looks longer the lock is held after a round in which the other session had it soon. With
/// `SHORTER`, rounds end close to the moment at which that session goes to sleep.
const LONGER: u64 = 16;

/// How many looks shorter the lock is held after a round in which the other session slept for it.
const SHORTER: u64 = 96;

/// By fewer looks than this the lock is held longer, by chance.
const CHANCE: u64 = 128;

/// For how many looks the lock is held at most, but for chance.
const LONGEST: u64 = 65_536;

/// Whether `word` comes to show `round` soon.
fn comes_soon(word: &AtomicU64, round: u64) -> bool {
    for _ in 0..SOON {
        if word.load(Ordering::SeqCst) >= round {
            return true;
        }
    }
    false
}

/// Whether `word` comes to show `round` within a time that is long beside all that a round takes.
fn comes<R: Clock>(rt: &R, word: &AtomicU64, round: u64) -> bool {
    if comes_soon(word, round) {
        return true;
    }
    for _ in SOON..LATE {
        thread::yield_now();
        if word.load(Ordering::SeqCst) >= round {
            return true;
        }
    }
    for _ in 0..PAUSES {
        sleep(rt, Duration::from_millis(PAUSE));
        if word.load(Ordering::SeqCst) >= round {
            return true;
        }
    }
    false
}

/// The number of the round at `place`, from 1 on, of the rounds that `beginning` counts before it.
pub fn round_of(beginning: u64, place: u64) -> u64 {
    beginning.wrapping_mul(ROUNDS).wrapping_add(place)
}

/// A number that looks random, another one for each `seed` (splitmix).
fn mixed(seed: u64) -> u64 {
    let mixed = seed.wrapping_add(1).wrapping_mul(0x9E37_79B9_7F4A_7C15);
    let mixed = (mixed ^ mixed >> 30).wrapping_mul(0xBF58_476D_1CE4_E5B9);
    mixed ^ mixed >> 27
}

/// The rounds in which two sessions race for a lock: how far each of the two has got.
#[derive(Drop)]
pub struct Rounds {
    /// The last round in which the lock was held.
    held: AtomicU64,
    /// The last round in which the other session came for the lock.
    came: AtomicU64,
    /// The last round in which the other session had the lock too.
    over: AtomicU64,
    /// For how many looks the lock is held.
    looks: AtomicU64,
}

impl Rounds {
    /// Rounds of which none was begun.
    pub fn new() -> Rounds {
        Rounds {
            held: AtomicU64::new(0),
            came: AtomicU64::new(0),
            over: AtomicU64::new(0),
            looks: AtomicU64::new(0),
        }
    }

    /// Holds the lock for some looks once the other session comes in `round`, and answers whether that
    /// session came soon.
    fn hold<R: Abort + Clock>(&self, rt: &R, round: u64) -> bool {
        self.held.store(round, Ordering::SeqCst);
        let is_soon = comes_soon(&self.came, round);
        assert!(rt;
            is_soon || comes(rt, &self.came, round),
            "round {round}: nobody comes for the lock"
        );
        for _ in 0..self.looks.load(Ordering::SeqCst) {
            self.over.load(Ordering::SeqCst);
        }
        for _ in 0..mixed(round) % CHANCE {
            self.over.load(Ordering::SeqCst);
        }
        is_soon
    }

    /// Ends the test unless the lock was put back, and the other session has had it too, in `round`. Where
    /// the other session `came_soon`, how soon it had the lock decides for how long the lock is held in the
    /// next round.
    fn expect_over<R: Abort + Clock>(&self, rt: &R, round: u64, came_soon: bool) {
        let is_soon = comes_soon(&self.over, round);
        assert!(rt;
            is_soon || comes(rt, &self.over, round),
            "round {round}: who came for the lock as it was put sleeps for ever"
        );
        let looks = self.looks.load(Ordering::SeqCst);
        if came_soon && is_soon {
            self.looks.store(looks.saturating_add(LONGER).min(LONGEST), Ordering::SeqCst);
        } else if came_soon {
            self.looks
                .store(looks.saturating_sub(SHORTER), Ordering::SeqCst);
        }
    }

    /// Comes for the lock once it is held in `round`.
    fn come<R: Abort + Clock>(&self, rt: &R, round: u64) {
        assert!(rt;
            comes(rt, &self.held, round),
            "round {round}: nobody holds the lock"
        );
        self.came.store(round, Ordering::SeqCst);
    }

    /// Notes that the session that came for the lock has had it in `round`.
    fn note_over(&self, round: u64) {
        self.over.store(round, Ordering::SeqCst);
    }
}

/// What a session does in a race for a lock.
#[derive(Clone, Copy)]
pub enum Role {
    /// The session that has the lock first, and holds the lock until the other session comes.
    Holder,
    /// The session that comes for the lock once the other session holds it.
    Latecomer,
}

/// A round of a race, as one of its two sessions goes through it.
#[derive(Clone, Copy)]
pub struct Round<'a> {
    pub rounds: &'a Rounds,
    pub number: u64,
    pub role: Role,
}

impl Round<'_> {
    /// Begins the round, before the session takes the lock.
    pub fn begin<R: Abort + Clock>(&self, rt: &R) {
        if let Role::Latecomer = self.role {
            self.rounds.come(rt, self.number);
        }
    }

    /// Stays for as long as the session is to have the lock, which it has. Answers whether it is the holder
    /// and the other session came soon.
    pub fn stay<R: Abort + Clock>(&self, rt: &R) -> bool {
        match self.role {
            Role::Holder => self.rounds.hold(rt, self.number),
            Role::Latecomer => false,
        }
    }

    /// Ends the round, once the session has put the lock back; `came_soon` is what `stay` answered.
    pub fn end<R: Abort + Clock>(&self, rt: &R, came_soon: bool) {
        match self.role {
            Role::Holder => self.rounds.expect_over(rt, self.number, came_soon),
            Role::Latecomer => self.rounds.note_over(self.number),
        }
    }
}
