//! How far a hammer is: what its workers tell while they play, and the line on a terminal that shows it.

use std::io::{self, Write};
use std::sync::Mutex;
use std::sync::atomic::{AtomicU64, Ordering};
use std::time::{Clock, Duration, Instant};

/// After how many rounds of all workers together a progress line reads the clock.
const ROUNDS_A_LOOK: u64 = 64;

/// After how many milliseconds, at the soonest, a progress line is written anew.
const PAUSE: u128 = 250;

/// What the workers of a hammer call while they play.
pub trait Progress {
    /// A worker of the hammer has played a round.
    fn count_round(&self);

    /// No worker of the hammer plays any more.
    fn end(&self);
}

/// The progress of a hammer that nobody watches.
#[derive(Drop)]
pub struct Unwatched;

impl Progress for Unwatched {
    fn count_round(&self) {}

    fn end(&self) {}
}

/// One line on a terminal, written anew a few times a second, that shows how many of all rounds of a hammer
/// are played, and how many that is a second. A hammer that ends before the time of its line has come writes
/// none. The line uses nothing of the lock manager.
#[derive(Drop)]
pub struct ProgressLine<'a, C, E> {
    clock: &'a C,
    all: u64,
    played: AtomicU64,
    line: Mutex<Line<'a, E>>,
}

impl<'a, C: Clock, E: Write> ProgressLine<'a, C, E> {
    /// A line on `writer` for a hammer of `all` rounds, which begin now by `clock`. The error is one of
    /// reading the clock.
    pub fn new(clock: &'a C, writer: &'a mut E, all: u64) -> io::Result<Self> {
        let begun = Instant::now(clock)?;
        let line = Line {
            writer,
            begun,
            written: begun,
            is_written: false,
        };
        Ok(ProgressLine {
            clock,
            all,
            played: AtomicU64::new(0),
            line: Mutex::new(line),
        })
    }
}

impl<'a, C: Clock, E: Write> Progress for ProgressLine<'a, C, E> {
    fn count_round(&self) {
        let played = self.played.fetch_add(1, Ordering::SeqCst).wrapping_add(1);
        if played % ROUNDS_A_LOOK != 0 {
            return;
        }
        // Where the clock fails, or another worker is at the line, the next look writes it.
        let Ok(now) = Instant::now(self.clock) else {
            return;
        };
        if let Some(mut line) = self.line.try_lock() {
            line.renew(now, played, self.all);
        }
    }

    fn end(&self) {
        let played = self.played.load(Ordering::SeqCst);
        let Ok(now) = Instant::now(self.clock) else {
            return;
        };
        if let Some(mut line) = self.line.try_lock() {
            line.end(now, played, self.all);
        }
    }
}

/// The line of a `ProgressLine` on its writer, which one worker writes at a time.
#[derive(Drop)]
struct Line<'a, E> {
    writer: &'a mut E,
    /// The moment when the rounds of the hammer began.
    begun: Instant,
    /// The moment when the progress line was last written, or when the rounds began, if the line never was.
    written: Instant,
    is_written: bool,
}

impl<'a, E: Write> Line<'a, E> {
    /// Writes the progress line anew at the time `now`, if its time has come, with `played` of `all` rounds.
    fn renew(&mut self, now: Instant, played: u64, all: u64) {
        if now.duration_since(self.written).as_millis() >= PAUSE {
            self.written = now;
            self.is_written = true;
            self.write(now, played, all);
        }
    }

    /// Ends the progress line, if one was written: writes it for the last time, at the time `now`, with
    /// `played` of `all` rounds.
    fn end(&mut self, now: Instant, played: u64, all: u64) {
        if self.is_written {
            self.write(now, played, all);
            // Where the line can't be written, the hammer goes on all the same.
            let _ = writeln!(self.writer);
        }
    }

    /// Writes at the time `now` that `played` of `all` rounds are played, over the old text of the progress
    /// line, and erases what is left of that.
    fn write(&mut self, now: Instant, played: u64, all: u64) {
        let rate = rounds_a_second(played, now.duration_since(self.begun));
        // Where the line can't be written, the hammer goes on all the same.
        let _ = write!(
            self.writer,
            "\r{played} of {all} rounds, {rate} a second\x1b[K"
        );
        let _ = self.writer.flush();
    }
}

/// How many rounds a second it is where `played` rounds were played within `since`.
fn rounds_a_second(played: u64, since: Duration) -> u128 {
    u128::from(played) * 1000 / since.as_millis().max(1)
}
