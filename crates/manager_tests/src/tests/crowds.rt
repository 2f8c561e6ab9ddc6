//! As many sessions as there can be on one partition, and at one object, each in a thread of its own, under a
//! watchdog that ends the test where nobody goes on. So no session sleeps for ever in the wait list of the
//! partition's lightweight lock, or in the object's queue.

use super::answers::expect_granted;
use super::gates::Gate;
use super::sessions::{acquire, give_tag_back, try_lock};
use super::side_by_side::{Play, play_side_by_side};
use connections::{Connection, ManagerName};
use lock_manager::{Board, Mode, Owner, Part, Tag};
use std::process::Abort;
use std::sync::Wait;
use std::sync::atomic::{AtomicBool, AtomicU64, Ordering};
use std::thread::{Threads, join, sleep};
use std::time::{Clock, Duration};

/// What the sessions of a crowd take.
#[derive(Clone, Copy, PartialEq, Eq)]
pub enum Takes {
    /// Each takes an object of its own, at once. All these objects lie in one partition.
    OwnObjects,
    /// All take one object, for which they wait.
    OneObject,
}

/// How many sessions there are, what they take, and how often each locks and unlocks it.
#[derive(Clone, Copy)]
pub struct Crowd {
    pub sessions: u32,
    pub takes: Takes,
    pub rounds: u32,
}

impl Crowd {
    /// How often all sessions together lock and unlock.
    fn all(self) -> u64 {
        u64::from(self.sessions).saturating_mul(u64::from(self.rounds))
    }
}

/// As many sessions as a usual manager can have, which lock and unlock 100,032 times all together.
pub const USUAL: Crowd = Crowd {
    sessions: 64,
    takes: Takes::OwnObjects,
    rounds: 1_563,
};

/// As many sessions as a server's manager can have, on one partition.
pub const ON_ONE_PARTITION: Crowd = Crowd {
    sessions: 1_024,
    takes: Takes::OwnObjects,
    rounds: 20,
};

/// As many sessions as a server's manager can have, at one object.
pub const AT_ONE_OBJECT: Crowd = Crowd {
    sessions: 1_024,
    takes: Takes::OneObject,
    rounds: 5,
};

/// How many words, with a bit for each session, show which sessions of a crowd have ended.
const WORDS: usize = 16;

/// How often the watchdog looks in vain before it gives up, with `PAUSE` milliseconds between.
const LOOKS: u32 = 4_000;

const PAUSE: u64 = 10;

/// What the threads show the watchdog, and where they begin.
#[derive(Drop)]
pub struct Watch {
    start: Gate,
    pub rounds: AtomicU64,
    /// Which sessions have ended, a bit each.
    ended: [AtomicU64; WORDS],
    pub is_over: AtomicBool,
}

impl Watch {
    /// A watch of threads that have not begun.
    pub fn new() -> Watch {
        Watch {
            start: Gate::new(),
            rounds: AtomicU64::new(0),
            ended: std::array::from_fn(|_| AtomicU64::new(0)),
            is_over: AtomicBool::new(false),
        }
    }

    /// Notes that the session numbered `number` has ended.
    fn end(&self, number: u32) {
        if let Some(word) = self.ended.get(number as usize / 64) {
            word.fetch_or(1 << (number % 64), Ordering::SeqCst);
        }
    }

    /// Which sessions have not ended, a bit each.
    fn asleep(&self) -> [u64; WORDS] {
        let mut asleep = [0; WORDS];
        for place in 0..WORDS {
            asleep[place] = !self.ended[place].load(Ordering::SeqCst);
        }
        asleep
    }
}

/// The tag of what the session numbered `number` takes. Objects of their own lie in one partition, since
/// their numbers are 16 apart.
fn object_of(takes: Takes, number: u32) -> Tag {
    match takes {
        Takes::OwnObjects => Tag::object(5, 1_259, 16 * (number % 1_024), 0),
        Takes::OneObject => Tag::object(5, 1_259, 0, 0),
    }
}

/// Locks `tag` with `connection`, which waits for it where it is to be the one object, and unlocks it.
fn lock_once<B: Board<Part>, M: ManagerName, R: Abort + Wait>(
    rt: &R,
    connection: &mut Connection<B, M>,
    takes: Takes,
    tag: Tag,
) {
    let answer = match takes {
        Takes::OwnObjects => try_lock(rt, connection, tag, Mode::Exclusive, Owner::Transaction),
        Takes::OneObject => acquire(rt, connection, tag, Mode::Exclusive, Owner::Transaction),
    };
    expect_granted(rt, answer, tag, Mode::Exclusive);
    give_tag_back(rt, connection, tag, Mode::Exclusive, Owner::Transaction);
}

/// A crowd whose sessions show the watchdog what they do.
#[derive(Clone, Copy)]
struct Watched<'a> {
    crowd: Crowd,
    watch: &'a Watch,
}

impl Play for Watched<'_> {
    /// Locks and unlocks with `connection` over and over, once all have come, and shows it to the watchdog.
    fn play<B: Board<Part>, M: ManagerName, R: Abort + Clock + Wait>(
        &self,
        rt: &R,
        connection: &mut Connection<B, M>,
    ) {
        let number = u32::from(connection.session.id().number());
        let tag = object_of(self.crowd.takes, number);
        self.watch
            .start
            .come_asleep(rt, u64::from(self.crowd.sessions));
        for _ in 0..self.crowd.rounds {
            lock_once(rt, connection, self.crowd.takes, tag);
            self.watch.rounds.fetch_add(1, Ordering::SeqCst);
        }
        self.watch.end(number);
    }
}

/// Has each of `connections` lock and unlock in a thread of its own, and shows to the watchdog that all is
/// over.
fn lock_until_over<
    B: Board<Part> + Send,
    M: ManagerName + Send,
    R: Abort + Clock + Threads + Wait + Sync,
>(rt: &R, connections: &mut [Connection<B, M>], crowd: Crowd, watch: &Watch) {
    play_side_by_side(rt, &Watched { crowd, watch }, connections);
    watch.is_over.store(true, Ordering::SeqCst);
}

/// Has each of `connections` lock and unlock in a thread of its own, under the watchdog.
fn lock_watched<
    B: Board<Part> + Send,
    M: ManagerName + Send,
    R: Abort + Clock + Threads + Wait + Sync,
>(rt: &R, connections: &mut [Connection<B, M>], crowd: Crowd, watch: &Watch) {
    join(
        rt,
        || lock_until_over(rt, connections, crowd, watch),
        || guard(rt, watch),
    );
}

/// Looks at `watch` until all is over. Where nobody goes on for too long it ends the test, and says what it
/// saw.
pub fn guard<R: Abort + Clock + Wait>(rt: &R, watch: &Watch) {
    let mut seen = 0;
    let mut in_vain: u32 = 0;
    for _ in rt.forever() {
        if watch.is_over.load(Ordering::SeqCst) {
            return;
        }
        sleep(rt, Duration::from_millis(PAUSE));
        let rounds = watch.rounds.load(Ordering::SeqCst);
        in_vain = if rounds == seen {
            in_vain.saturating_add(1)
        } else {
            0
        };
        seen = rounds;
        if in_vain >= LOOKS {
            let asleep = watch.asleep();
            panic!(rt; "nobody goes on after {rounds} rounds; asleep are the sessions {asleep:?}");
        }
    }
    unreachable!()
}

/// Has all of `connections`, as many as `crowd` says, lock and unlock what it says.
pub fn act<B: Board<Part> + Send, M: ManagerName + Send, R: Abort + Clock + Threads + Wait + Sync>(
    rt: &R,
    connections: &mut [Connection<B, M>],
    crowd: Crowd,
) {
    let watch = Watch::new();
    lock_watched(rt, connections, crowd, &watch);
    let rounds = watch.rounds.load(Ordering::SeqCst);
    assert_eq!(rt; rounds, crowd.all());
}
