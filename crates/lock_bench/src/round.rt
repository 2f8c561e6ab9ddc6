//! A round of a job: its threads begin together, and note what they took when each has ended.

use crate::job::Job;
use crate::times::{now, used};
use std::sync::atomic::{AtomicU64, Ordering};
use std::sync::{Mutex, Wait};
use std::thread::sleep;
use std::time::{Clock, CpuClock, Duration};

/// How often a thread looks at most whether all others have come, or have ended, with `PAUSE` microseconds
/// between for each thread.
const LOOKS: u32 = 100_000;

const PAUSE: u64 = 20;

/// What threads took: when the first of them began and the last one ended, the longest wait of a request, and
/// the processor time of all, in nanoseconds; and how many requests were granted.
#[derive(Clone, Copy)]
pub struct Taken {
    from: u64,
    to: u64,
    pub longest: u64,
    pub processor: u64,
    pub counted: u64,
}

impl Taken {
    /// What threads took before any of them took something: no time, and no granted request.
    pub fn none() -> Self {
        Taken {
            from: u64::MAX,
            to: 0,
            longest: 0,
            processor: 0,
            counted: 0,
        }
    }

    /// The time by the clock on the wall.
    pub fn wall(self) -> u64 {
        self.to.saturating_sub(self.from)
    }

    /// What was taken with `counted` requests more that were granted.
    pub fn counting(self, counted: u64) -> Self {
        Taken {
            counted: self.counted.saturating_add(counted),
            ..self
        }
    }

    /// What was taken with one request more, which waited `waited` nanoseconds and was granted or not, as
    /// `is_granted` says.
    pub fn after(self, waited: u64, is_granted: bool) -> Self {
        Taken {
            longest: self.longest.max(waited),
            ..self.counting(u64::from(is_granted))
        }
    }

    /// What was taken with `processor` nanoseconds more of those that count alone.
    pub fn using(self, processor: u64) -> Self {
        Taken {
            processor: self.processor.saturating_add(processor),
            ..self
        }
    }

    /// What this thread and those of `other` took together.
    fn beside(self, other: Taken) -> Self {
        Taken {
            from: self.from.min(other.from),
            to: self.to.max(other.to),
            longest: self.longest.max(other.longest),
            processor: self.processor.saturating_add(other.processor),
            counted: self.counted.saturating_add(other.counted),
        }
    }
}

/// When a thread began, by the clock on the wall and by its processor.
#[derive(Clone, Copy)]
pub struct Start {
    wall: u64,
    processor: u64,
}

/// What the threads of a round share.
#[derive(Drop)]
pub struct Round<'a> {
    pub job: &'a Job,
    /// How many threads of the round have come. How many have ended is `ended`.
    came: AtomicU64,
    ended: AtomicU64,
    /// What those threads of the round took that have ended.
    taken: Mutex<Taken>,
}

impl<'a> Round<'a> {
    /// A round of `job`, to which no thread has come.
    pub fn new(job: &'a Job) -> Self {
        Round {
            job,
            came: AtomicU64::new(0),
            ended: AtomicU64::new(0),
            taken: Mutex::new(Taken::none()),
        }
    }

    /// What the threads of the round took.
    pub fn into_taken(self) -> Taken {
        self.taken.into_inner()
    }

    /// Waits by `rt` until all threads have come, so that none works alone. Answers when this thread begins.
    pub fn begin<R: Clock + CpuClock>(&self, rt: &R) -> Start {
        self.wait_for_all(rt, &self.came);
        Start {
            wall: now(rt),
            processor: used(rt),
        }
    }

    /// Whether a thread of the round has made all of its steps.
    pub fn has_ended(&self) -> bool {
        self.ended.load(Ordering::SeqCst) > 0
    }

    /// Adds one to `counted`, and waits until the count is the number of threads. Nobody waits for ever for a
    /// thread that couldn't be started.
    fn wait_for_all<R: Clock>(&self, rt: &R, counted: &AtomicU64) {
        let threads = u64::from(self.job.threads);
        counted.fetch_add(1, Ordering::SeqCst);
        for _ in 0..LOOKS {
            if counted.load(Ordering::SeqCst) >= threads {
                return;
            }
            sleep(rt, Duration::from_micros(PAUSE.saturating_mul(threads)));
        }
    }

    /// Notes the `steps` of a thread that has made all of its own since `start`. Its processor time is that
    /// of all its steps, where these have none of their own. Then waits until all threads have ended, so that
    /// this one keeps what it holds while others look at it.
    pub fn end<R: Wait + Clock + CpuClock>(&self, rt: &R, start: Start, steps: Taken) {
        let to = now(rt);
        let processor = match steps.processor {
            0 => used(rt).saturating_sub(start.processor),
            own => own,
        };
        let own = Taken {
            from: start.wall,
            to,
            processor,
            ..steps
        };
        self.add(rt, own);
        self.wait_for_all(rt, &self.ended);
    }

    /// Adds what one thread took, which is its `own`, to what those took that have ended.
    fn add<R: Wait>(&self, rt: &R, own: Taken) {
        let mut all = self.taken.lock(rt);
        *all = all.beside(own);
    }
}
