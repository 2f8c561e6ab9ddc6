//! Gates at which threads meet, so that they go on at the same moment, and how often each side of a race won.

use std::process::Abort;
use std::sync::Wait;
use std::sync::atomic::{AtomicU64, Ordering};
use std::thread;
use std::thread::sleep;
use std::time::{Clock, Duration};

/// How often a thread looks whether the others have come before it leaves its processor to them: soon where
/// they only have to come, and late where all are to go on at the same moment, since who is given a processor
/// again comes long after the others.
const SOON: u64 = 2_000;

const LATE: u64 = 20_000;

/// How many steps a thread pauses at most after a gate: some two microseconds.
const STEPS: u64 = 2_048;

/// How often a thread leaves its processor at most in some rounds, for each side in others, so that the other
/// side is woken and wins.
const TURNS: u64 = 64;

/// Where threads meet, over and over.
#[derive(Drop)]
pub struct Gate {
    come: AtomicU64,
}

impl Gate {
    pub fn new() -> Gate {
        Gate {
            come: AtomicU64::new(0),
        }
    }

    /// How many times a thread has come to the gate so far.
    fn come_so_far(&self) -> u64 {
        self.come.load(Ordering::SeqCst)
    }

    /// Comes to the gate, and goes on once `many` have come that meet here each time.
    pub fn come<R: Wait>(&self, rt: &R, many: u64) {
        self.wait(rt, many, SOON);
    }

    /// Comes to the gate, and goes on once `many` have come, which are too many to look all the time: sleeps
    /// for a millisecond between two looks.
    pub fn come_asleep<R: Clock + Wait>(&self, rt: &R, many: u64) {
        self.come.fetch_add(1, Ordering::SeqCst);
        for _ in rt.forever() {
            if self.come_so_far() >= many {
                return;
            }
            sleep(rt, Duration::from_millis(1));
        }
    }

    /// Comes to the gate, and goes on once `many` have come, with `patience` looks before the processor is
    /// left to others.
    fn wait<R: Wait>(&self, rt: &R, many: u64, patience: u64) {
        let before = self.come.fetch_add(1, Ordering::SeqCst);
        let all = match before.checked_rem(many) {
            Some(place) => before.saturating_sub(place).saturating_add(many),
            None => 0,
        };
        let mut looks = 0u64;
        for _ in rt.forever() {
            if self.come_so_far() >= all {
                return;
            }
            looks = looks.saturating_add(1);
            if looks >= patience {
                thread::yield_now();
            }
        }
    }

    /// Comes to the gate, and goes on after a pause, which is another one for each `round` and each `side`.
    pub fn pass<R: Wait>(&self, rt: &R, round: u32, side: u32) {
        self.wait(rt, 2, LATE);
        let number = pause(round, side);
        for _ in 0..number % STEPS {
            self.come_so_far();
        }
        if round % 8 == side {
            for _ in 0..number % TURNS {
                thread::yield_now();
            }
        }
    }
}

/// A number for the pause of `side` in `round`.
fn pause(round: u32, side: u32) -> u64 {
    mixed(
        u64::from(round)
            .wrapping_mul(2)
            .wrapping_add(u64::from(side)),
    )
}

/// A number that looks random, another one for each `seed` (splitmix).
pub fn mixed(seed: u64) -> u64 {
    let mixed = seed.wrapping_add(1).wrapping_mul(0x9E37_79B9_7F4A_7C15);
    let mixed = (mixed ^ mixed >> 30).wrapping_mul(0xBF58_476D_1CE4_E5B9);
    mixed ^ mixed >> 27
}

/// How often each side of a race won.
#[derive(Drop)]
pub struct Wins {
    first: AtomicU64,
    second: AtomicU64,
}

impl Wins {
    pub fn none() -> Wins {
        Wins {
            first: AtomicU64::new(0),
            second: AtomicU64::new(0),
        }
    }

    /// Counts that the first side of the race won.
    pub fn first(&self) {
        self.first.fetch_add(1, Ordering::SeqCst);
    }

    /// Counts that the second side of the race won.
    pub fn second(&self) {
        self.second.fetch_add(1, Ordering::SeqCst);
    }

    /// Counts that the first side won, where `is_first`, or the second one.
    pub fn count(&self, is_first: bool) {
        if is_first {
            self.first();
        } else {
            self.second();
        }
    }

    /// Prints how often each side of `race` won, and ends the test where one never did.
    pub fn expect_both<R: Abort + Print>(&self, rt: &R, race: &str) {
        let first = self.first.load(Ordering::SeqCst);
        let second = self.second.load(Ordering::SeqCst);
        let _ = println!(rt; "{race}: {first} times the first one, {second} times the second one");
        assert!(rt; first > 0 && second > 0, "{race}: one side never won");
    }
}
