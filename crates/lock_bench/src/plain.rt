//! What is done without a session: what is taken off a row's time, what it is compared with, and what threads
//! do beside the lock manager.

use crate::floors::{Floor, Words};
use crate::job::{Job, Plan};
use crate::keys::{Key, Keys, NONE, WEAK};
use crate::local::{Local, LocalBed};
use crate::round::{Round, Taken};
use crate::shared_map::{SharedMap, count_held, map_all, map_pairs, uncount_all};
use crate::times::{now, used};
use anyhow::Result;
use modes_core::{Mode, Owner, Tag};
use std::collections::HashMap;
use std::sync::{Condvar, Mutex, Wait};
use std::thread::{Threads, for_each_mut};
use std::time::{Clock, CpuClock};

/// How many threads there are at most that need no session.
pub const MOST_THREADS: usize = 64;

/// How often the clock is read at most while something is held.
const READINGS: u32 = 1_000_000;

/// What is done with each key of a list, over and over.
#[derive(Clone, Copy)]
pub enum Plain {
    Nothing,
    /// A call that does nothing. `TwoCalls` are two of them.
    OneCall,
    TwoCalls,
    /// Two readings of the clock, once for all keys.
    Readings,
    /// The atomic steps of a way, with nothing decided.
    Floor(Floor),
    /// The key is counted in the map once more and once less.
    MapPair,
    /// The key is looked up in the map.
    MapLookUp,
    /// The key is counted in the map. After all keys each key is counted once less, which alone is timed.
    MapCommit,
    /// Something is done on a local lock table, or on a map beside it.
    Local(Local),
    /// A standard mutex is taken, worked with, and released.
    Mutex,
    /// A turn is awaited under a mutex, by a condition variable, and passed on to the other thread.
    Turn,
}

impl Plain {
    /// What it is called in a table, where threads do it that have no session.
    pub fn name(self) -> Option<&'static str> {
        match self {
            Plain::Local(local) => Some(local.name()),
            Plain::MapPair => Some("the same on a map in a mutex"),
            Plain::Mutex => Some("a mutex"),
            Plain::Turn => Some("a turn, by mutex and condition"),
            _ => None,
        }
    }

    /// What the local lock table holds on which it is done, if that holds `entries` entries.
    fn held(self, entries: u32) -> Keys {
        match self {
            Plain::Local(_) => WEAK.first(entries),
            _ => NONE,
        }
    }
}

/// What all of it is done on: a local lock table with its map, a map in a mutex, the words of the atomic
/// steps, a mutex, and whose turn it is.
#[derive(Drop)]
pub struct Bed {
    local: Mutex<LocalBed>,
    map: SharedMap,
    words: Words,
    lock: Mutex<u64>,
    turn: Mutex<u64>,
    passed: Condvar,
}

/// A call that only looks at `tag`, `mode` and `owner`: answers `passed` plus one, unless the three are those
/// of no key.
#[inline(never)]
pub fn pass(passed: u64, tag: &Tag, mode: Mode, owner: Owner) -> u64 {
    if *tag != Tag::relation(0, 0) || mode != Mode::Share || owner != Owner::Session {
        return passed.wrapping_add(1);
    }
    passed
}

/// Makes a call that does nothing for each of `keys` and `owner`, `laps` times.
#[inline(never)]
pub fn passes(keys: &[Key], owner: Owner, laps: u32) -> u64 {
    let mut passed = 0u64;
    for _ in 0..laps {
        for (tag, mode) in keys {
            passed = pass(passed, tag, *mode, owner);
        }
    }
    passed
}

/// Makes two calls that do nothing for each of `keys` and `owner`, `laps` times.
#[inline(never)]
pub fn double_passes(keys: &[Key], owner: Owner, laps: u32) -> u64 {
    let mut passed = 0u64;
    for _ in 0..laps {
        for (tag, mode) in keys {
            passed = pass(passed, tag, *mode, owner);
            passed = pass(passed, tag, *mode, owner);
        }
    }
    passed
}

/// Keeps the processor busy for `nanos` nanoseconds of the clock of `rt`.
pub fn work(rt: &impl Clock, nanos: u64) {
    let from = now(rt);
    for _ in 0..READINGS {
        if now(rt).saturating_sub(from) >= nanos {
            return;
        }
    }
}

/// Reads the clock twice, `laps` times. Answers the nanoseconds between two readings that follow each other
/// at once.
fn readings<R: CpuClock>(rt: &R, laps: u32) -> Taken {
    let mut taken = Taken::none();
    for _ in 0..laps {
        let from = used(rt);
        taken = taken.using(used(rt).saturating_sub(from));
    }
    taken
}

impl Bed {
    /// The bed of `plan`, with words for its sessions. The map in a mutex has what its sessions hold
    /// throughout, and the local table the entries that it is to have, all of `database`.
    pub fn new<R: Wait + AllocGlobal>(rt: &R, plan: &Plan, database: u32) -> Result<Self> {
        let alloc = rt.alloc();
        let map: SharedMap = Mutex::new(HashMap::new(alloc));
        for keys in [plan.act.held(), plan.act.held_by_other(plan.beside)] {
            map_all(rt, &map, keys.list(alloc, database)?.as_slice())?;
        }
        let local = plan.plain.held(plan.beside).list(alloc, database)?;
        Ok(Bed {
            local: Mutex::new(LocalBed::new(alloc, local.as_slice())?),
            map,
            words: Words::new(alloc, plan.sessions)?,
            lock: Mutex::new(0),
            turn: Mutex::new(0),
            passed: Condvar::new(),
        })
    }

    /// Makes the steps of `plain` that the thread with the number `thread` has in `job`.
    fn make<R: Wait + Clock + CpuClock>(
        &self,
        rt: &R,
        plain: Plain,
        job: &Job,
        thread: usize,
    ) -> Taken {
        let (keys, owner, laps) = (job.keys_of(thread), job.owner, job.laps);
        let counted = match plain {
            Plain::OneCall => passes(keys, owner, laps),
            Plain::TwoCalls => double_passes(keys, owner, laps),
            Plain::MapPair => map_pairs(rt, &self.map, keys, laps),
            Plain::MapLookUp => count_held(rt, &self.map, keys, laps),
            Plain::Readings => return readings(rt, laps),
            Plain::MapCommit => return self.commit(rt, keys, laps),
            Plain::Mutex => return self.hold(rt, job),
            Plain::Local(local) => return self.local.lock(rt).make(rt, local, keys, owner, laps),
            Plain::Turn => self.take_turns(rt, thread, laps),
            Plain::Floor(floor) => {
                self.words.go(floor, job.steps_of(thread));
                0
            }
            Plain::Nothing => 0,
        };
        Taken::none().counting(counted)
    }

    /// Counts all of `keys` once more and once less in the map, `laps` times. The latter alone is timed.
    fn commit<R: Wait + CpuClock>(&self, rt: &R, keys: &[Key], laps: u32) -> Taken {
        let mut taken = Taken::none();
        for _ in 0..laps {
            if map_all(rt, &self.map, keys).is_err() {
                return taken;
            }
            let from = used(rt);
            uncount_all(rt, &self.map, keys);
            taken = taken
                .using(used(rt).saturating_sub(from))
                .counting(keys.len() as u64);
        }
        taken
    }

    /// Takes the mutex, works as long as `job` says, and releases it, as often as `job` says.
    fn hold<R: Wait + Clock>(&self, rt: &R, job: &Job) -> Taken {
        let mut taken = Taken::none();
        for _ in 0..job.laps {
            let from = now(rt);
            let mut held = self.lock.lock(rt);
            taken = taken.after(now(rt).saturating_sub(from), true);
            work(rt, job.work);
            *held = held.wrapping_add(1);
        }
        taken
    }

    /// Waits until the turn is that of `thread`, and makes it the other thread's, `turns` times. Answers how
    /// often.
    fn take_turns<R: Wait>(&self, rt: &R, thread: usize, turns: u32) -> u64 {
        let number = thread as u64;
        for _ in 0..turns {
            let lock = self.turn.lock(rt);
            let mut whose = self.passed.wait_while(rt, lock, |whose| *whose != number);
            *whose = number ^ 1;
            drop(whose);
            self.passed.notify_one();
        }
        u64::from(turns)
    }

    /// Makes the part of `round` that the thread with the number `thread` has, which does `plain`.
    fn play<R: Wait + Clock + CpuClock>(
        &self,
        rt: &R,
        plain: Plain,
        thread: usize,
        round: &Round<'_>,
    ) {
        let start = round.begin(rt);
        let steps = self.make(rt, plain, round.job, thread);
        round.end(rt, start, steps);
    }

    /// Makes a round of `job`, in which its threads do `plain`.
    pub fn play_round<R: Threads + Wait + Clock + CpuClock + Sync>(
        &self,
        rt: &R,
        plain: Plain,
        job: &Job,
    ) -> Taken {
        let round = Round::new(job);
        let mut threads = [(); MOST_THREADS];
        let some = (job.threads as usize).min(threads.len());
        for_each_mut(
            rt,
            &mut threads[..some],
            some.max(1),
            &|thread, _| self.play(rt, plain, thread, &round),
        );
        round.into_taken()
    }
}
