//! What is timed in several rounds: the clocks, the times, and their median.

use anyhow::Result;
use std::fmt;
use std::time::{Clock, CpuClock, Duration};

/// In how many rounds a time is taken at most.
pub const ROUNDS: usize = 15;

/// The processor time that this thread has used by `rt`, in nanoseconds; 0 where it can't be read.
pub fn used(rt: &impl CpuClock) -> u64 {
    rt.thread_cpu_time().map_or(0, nanos)
}

/// The time by the clock of `rt` on the wall, in nanoseconds since some start; 0 where it can't be read.
pub fn now(rt: &impl Clock) -> u64 {
    rt.monotonic().map_or(0, nanos)
}

/// Reads both clocks of `rt` once. The error says that one can't be read, so that nothing is timed in vain.
pub fn see_clocks(rt: &(impl Clock + CpuClock)) -> Result<()> {
    rt.thread_cpu_time()?;
    rt.monotonic()?;
    Ok(())
}

/// The length of `time` in nanoseconds.
fn nanos(time: Duration) -> u64 {
    time.as_secs()
        .saturating_mul(1_000_000_000)
        .saturating_add(u64::from(time.subsec_nanos()))
}

/// The times of rounds, each in tenths of a nanosecond for one step, and how many rounds were made.
#[derive(Clone, Copy)]
pub struct Times {
    tenths: [u64; ROUNDS],
    made: usize,
}

impl Times {
    /// The times of rounds of which none was made yet.
    pub fn new() -> Self {
        Times {
            tenths: [0; ROUNDS],
            made: 0,
        }
    }

    /// Notes that the next round took `nanos` nanoseconds for `steps` steps.
    pub fn note(&mut self, nanos: u64, steps: u64) {
        if let Some(tenths) = self.tenths.get_mut(self.made) {
            *tenths = nanos.saturating_mul(10).checked_div(steps).unwrap_or(0);
            self.made = self.made.wrapping_add(1);
        }
    }

    /// The median of the times, with the smallest and the largest.
    pub fn spread(mut self) -> Spread {
        let made = self.made.min(self.tenths.len());
        self.tenths[..made].sort_unstable();
        Spread {
            median: self.at(made / 2),
            least: self.at(0),
            most: self.at(made.saturating_sub(1)),
        }
    }

    /// The time at `place`; 0 if there is none.
    fn at(&self, place: usize) -> Tenths {
        match self.tenths.get(place) {
            Some(tenths) => Tenths(*tenths),
            None => Tenths(0),
        }
    }
}

/// A time in tenths of a nanosecond, which is written in nanoseconds.
#[derive(Clone, Copy, Default)]
pub struct Tenths(pub u64);

impl fmt::Display for Tenths {
    fn fmt<W: fmt::Write>(&self, f: &mut fmt::Formatter<W>) -> fmt::Result {
        write!(f, "{}.{}", self.0 / 10, self.0 % 10)
    }
}

/// The median time of several rounds, with the smallest and the largest.
#[derive(Clone, Copy, Default)]
pub struct Spread {
    pub median: Tenths,
    pub least: Tenths,
    pub most: Tenths,
}

impl Spread {
    /// This spread of times with that of the empty loop, `empty`, taken off.
    pub fn above(self, empty: Spread) -> Spread {
        Spread {
            median: Tenths(self.median.0.saturating_sub(empty.median.0)),
            least: Tenths(self.least.0.saturating_sub(empty.least.0)),
            most: Tenths(self.most.0.saturating_sub(empty.median.0)),
        }
    }
}

impl fmt::Display for Spread {
    fn fmt<W: fmt::Write>(&self, f: &mut fmt::Formatter<W>) -> fmt::Result {
        let Spread {
            median,
            least,
            most,
        } = *self;
        write!(f, "{median} ({least} to {most})")
    }
}
