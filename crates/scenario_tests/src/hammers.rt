//! Hammers: what they print, gates that show in which threads the workers run, and the line that tells how
//! far they are.
use crate::pipes::Pipe;
use lock_hammer::{Gate, Hammer, OpenGate, Progress, ProgressLine, run_hammer, run_watched_hammer};
use lock_manager::USUAL_SESSIONS;
use lock_script::Fault;
use std::alloc::Global;
use std::io::{self, ErrorKind};
use std::process::Abort;
use std::sync::Wait;
use std::sync::atomic::{AtomicU64, Ordering};
use std::test::Fail;
use std::thread::{self, Threads};
use std::time::{Clock, Duration};

/// How many workers the gates count.
const WORKERS: usize = 4;

/// How often a gate that holds a worker looks whether the other worker has come.
const TURNS: u32 = 10_000_000;

/// A gate that counts how often each worker asks, and holds workers 0 and 1 each until the other has come.
#[derive(Drop)]
struct MeetingGate {
    asked: [AtomicU64; WORKERS],
}

impl MeetingGate {
    /// A gate at which nobody has been.
    fn new() -> Self {
        MeetingGate {
            asked: std::array::from_fn(|_| AtomicU64::new(0)),
        }
    }

    /// How often `worker` has asked. 0 for a worker that isn't counted.
    fn times(&self, worker: usize) -> u64 {
        if worker < WORKERS {
            self.asked[worker].load(Ordering::SeqCst)
        } else {
            0
        }
    }

    /// Whether `worker` comes to the gate within `TURNS` looks.
    fn comes(&self, worker: usize) -> bool {
        'turns: for _ in 0..TURNS {
            if self.times(worker) != 0 {
                return true;
            }
            thread::yield_now();
        }
        false
    }
}

impl Gate for MeetingGate {
    fn pass(&self, worker: u32) -> bool {
        let place = worker as usize;
        if place < WORKERS {
            self.asked[place].fetch_add(1, Ordering::SeqCst);
        }
        place > 1 || self.comes(1 - place)
    }
}

/// A gate that lets all pass but one.
#[derive(Drop)]
struct GateShutFor {
    worker: u32,
}

impl Gate for GateShutFor {
    fn pass(&self, worker: u32) -> bool {
        worker != self.worker
    }
}

/// Runs a hammer of `sessions` and `rounds`, both brought into their ranges, with `gate`, and checks that it
/// prints `printed` and that it ends with `fault`, as text (empty for none).
fn expect_hammer<G: Gate + Sync>(
    rt: &(impl Abort + AllocGlobal + Threads + Wait + Sync),
    gate: &G,
    sessions: u32,
    rounds: u32,
    printed: &str,
    fault: &str,
) -> Result<(), Fail> {
    let alloc: Global = rt.alloc();
    let (sessions, rounds) = (
        sessions.clamp(1, USUAL_SESSIONS),
        rounds.clamp(1, 1_000_000),
    );
    let mut output = Vec::new(alloc);
    let ended = match run_hammer(rt, gate, &mut output, sessions, rounds) {
        Ok(()) => String::new(alloc),
        Err(fault) => format!(in alloc; "{fault}")?,
    };
    assert_eq!(rt; ended.as_str(), fault, "the fault of {sessions} sessions");
    assert_eq!(rt;
        output.as_slice(),
        printed.as_bytes(),
        "the output of {sessions} sessions"
    );
    Ok(())
}

/// Numbers of sessions and of rounds, and what a hammer prints.
static HAMMERS: [(u32, u32, &str); 4] = [
    (
        1,
        1,
        "audit fast 1 table 1 strong 1\nfinal fast 0 table 0 strong 0\n",
    ),
    (
        2,
        17,
        "audit fast 2 table 1 strong 1\nfinal fast 0 table 0 strong 0\n",
    ),
    (4, 1000, FOUR),
    (
        64,
        40,
        "audit fast 64 table 1 strong 1\nfinal fast 0 table 0 strong 0\n",
    ),
];

/// What a hammer of four sessions prints.
const FOUR: &str = "audit fast 4 table 1 strong 1\nfinal fast 0 table 0 strong 0\n";

#[test]
fn counts_what_stands_when_all_have_ended(rt: HostRuntime) -> Result<(), Fail> {
    for row in &HAMMERS {
        let (sessions, rounds, printed) = *row;
        expect_hammer(&rt, &OpenGate, sessions, rounds, printed, "")?;
    }
    Ok(())
}

#[test]
fn runs_its_workers_side_by_side(rt: HostRuntime) -> Result<(), Fail> {
    let gate = MeetingGate::new();
    expect_hammer(&rt, &gate, 4, 1000, FOUR, "")?;
    for worker in 0..WORKERS {
        assert_eq!(rt; gate.times(worker), 1, "how often worker {worker} asked");
    }
    Ok(())
}

#[test]
fn ends_where_a_gate_is_held(rt: HostRuntime) -> Result<(), Fail> {
    for worker in 0..4 {
        expect_hammer(&rt, &GateShutFor { worker }, 4, 100, "", "gate held")?;
    }
    Ok(())
}

/// How many lines a writer takes and whether a flush, where it doesn't take all.
static CLOSED: [(u32, bool); 3] = [(0, true), (1, true), (1000, false)];

#[test]
fn tells_of_a_writer_that_fails(rt: HostRuntime) {
    for row in &CLOSED {
        let (lines, flushes) = *row;
        let ended = run_hammer(&rt, &OpenGate, Pipe { lines, flushes }, 2, 20);
        assert_eq!(rt; ended, Err(Fault::WriteFailed), "a writer of {lines} lines");
    }
}

/// A listener that counts the rounds and the ends that a hammer reports.
#[derive(Drop)]
struct Listener {
    rounds: AtomicU64,
    ends: AtomicU64,
}

impl Listener {
    /// A listener that has heard nothing yet.
    fn new() -> Self {
        Listener {
            rounds: AtomicU64::new(0),
            ends: AtomicU64::new(0),
        }
    }
}

impl Progress for Listener {
    fn count_round(&self) {
        self.rounds.fetch_add(1, Ordering::SeqCst);
    }

    fn end(&self) {
        self.ends.fetch_add(1, Ordering::SeqCst);
    }
}

/// The worker for which a gate is shut, and how many rounds are reported then where each of four workers is
/// to play a hundred.
static TOLD: [(u32, u64); 3] = [(0, 300), (3, 300), (4, 400)];

#[test]
fn tells_of_each_round_and_of_the_end(rt: HostRuntime) -> Result<(), Fail> {
    for row in &TOLD {
        let (worker, rounds) = *row;
        let listener = Listener::new();
        let size = Hammer {
            sessions: 4,
            rounds: 100,
        };
        let mut output = Vec::new(rt.alloc());
        let ended = run_watched_hammer(&rt, &GateShutFor { worker }, &listener, &mut output, size);
        assert_eq!(rt; ended.is_ok(), worker == 4);
        assert_eq!(rt;
            listener.rounds.load(Ordering::SeqCst),
            rounds,
            "but for {worker}"
        );
        assert_eq!(rt; listener.ends.load(Ordering::SeqCst), 1, "but for {worker}");
    }
    Ok(())
}

/// A clock on which a tenth of a second goes by from one reading to the next. It can be read a fixed number
/// of times, and fails after that.
#[derive(Drop)]
struct Ticks {
    read: AtomicU64,
    most: u64,
}

impl Clock for Ticks {
    fn monotonic(&self) -> io::Result<Duration> {
        let before = self.read.fetch_add(1, Ordering::SeqCst);
        if before < self.most {
            Ok(Duration::from_millis(before.saturating_mul(100)))
        } else {
            Err(io::Error::from(ErrorKind::Other))
        }
    }

    fn since_1970(&self) -> io::Result<Duration> {
        Err(io::Error::from(ErrorKind::Other))
    }
}

/// How many rounds one session plays, how often the clock can be read, and what the line says. The clock is
/// read at first, after each 64 rounds, and at the end.
static LINES: [(u32, u64, &str); 4] = [
    (100, 100, ""),
    (
        500,
        100,
        "\r192 of 500 rounds, 640 a second\x1b[K\r384 of 500 rounds, 640 a second\x1b[K\
         \r500 of 500 rounds, 625 a second\x1b[K\n",
    ),
    // It can't be read any more: the line stays as it is.
    (500, 5, "\r192 of 500 rounds, 640 a second\x1b[K"),
    (500, 1, ""),
];

/// Runs a hammer of one session with a line that the clock of `row` times, and checks what it says.
fn expect_line(rt: &(impl Abort + AllocGlobal + Threads + Wait + Sync), row: (u32, u64, &str)) {
    let (rounds, most, said) = row;
    let alloc: Global = rt.alloc();
    let (mut output, mut errors) = (Vec::new(alloc), Vec::new(alloc));
    let clock = Ticks {
        read: AtomicU64::new(0),
        most,
    };
    let size = Hammer {
        sessions: 1,
        rounds: rounds.clamp(1, 1_000_000),
    };
    match ProgressLine::new(&clock, &mut errors, u64::from(rounds)) {
        Ok(line) => {
            let ended = run_watched_hammer(rt, &OpenGate, &line, &mut output, size);
            assert_eq!(rt; ended, Ok(()), "a hammer of {rounds} rounds");
        }
        Err(_) => panic!(rt; "no line of {rounds} rounds"),
    }
    assert_eq!(rt;
        errors.as_slice(),
        said.as_bytes(),
        "the line of {rounds} rounds"
    );
    assert_eq!(rt;
        output.as_slice(),
        ONE.as_bytes(),
        "the output of {rounds} rounds"
    );
}

/// What a hammer of one session prints.
const ONE: &str = "audit fast 1 table 1 strong 1\nfinal fast 0 table 0 strong 0\n";

#[test]
fn shows_how_far_it_is(rt: HostRuntime) {
    for row in &LINES {
        expect_line(&rt, *row);
    }
}
