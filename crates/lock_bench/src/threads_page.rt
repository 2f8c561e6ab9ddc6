//! The page of threads: what several do beside each other, with a session each or under a standard mutex.

use crate::acts::Act;
use crate::crew::play;
use crate::job::{Asked, Plan};
use crate::line::Line;
use crate::plain::Plain;
use crate::progress::Progress;
use crate::times::ROUNDS;
use anyhow::Result;
use std::io;
use std::sync::Wait;
use std::thread::Threads;
use std::time::{Clock, CpuClock};

/// What is written above the rows.
const HEADING: &str =
    "for a step, with its work: nanoseconds by the clock, over all threads, median (smallest to largest); their processors' time, median;
    and the longest wait of a round in microseconds, median";

/// How many rounds are made of a row whose threads wait for each other.
const FEW_ROUNDS: u32 = 5;

/// A row: what sessions do, or what threads do that have none; for how many microseconds each holds what it
/// has; and how many steps all have together.
struct Row(Act, Plain, u64, u32);

/// The rows of short steps, and how many threads make them beside each other.
static SHORT: [Row; 5] = [
    Row(Act::OneObject, Plain::Nothing, 0, 400_000),
    Row(Act::OwnObjects, Plain::Nothing, 0, 400_000),
    Row(Act::OwnPartition, Plain::Nothing, 0, 400_000),
    Row(Act::OneRelation, Plain::Nothing, 0, 400_000),
    Row(Act::OwnObjects, Plain::MapPair, 0, 400_000),
];

static FEW_THREADS: [u32; 3] = [1, 2, 4];

/// The rows of two threads that pass something back and forth.
static HANDOVER: [Row; 2] = [
    Row(Act::Turns, Plain::Nothing, 0, 10_000),
    Row(Act::Turns, Plain::Turn, 0, 10_000),
];

static TWO_THREADS: [u32; 1] = [2];

/// The rows of threads that wait for each other, and how many there are of them.
static CONTENDED: [Row; 10] = [
    Row(Act::Hold, Plain::Nothing, 0, 48_000),
    Row(Act::Hold, Plain::Nothing, 1, 19_200),
    Row(Act::Hold, Plain::Nothing, 20, 4_800),
    Row(Act::HoldOwn, Plain::Nothing, 0, 48_000),
    Row(Act::HoldOwn, Plain::Nothing, 1, 19_200),
    Row(Act::HoldOwn, Plain::Nothing, 20, 4_800),
    Row(Act::ListHeld, Plain::Nothing, 0, 4_800),
    Row(Act::Hold, Plain::Mutex, 0, 48_000),
    Row(Act::Hold, Plain::Mutex, 1, 19_200),
    Row(Act::Hold, Plain::Mutex, 20, 4_800),
];

static MANY_THREADS: [u32; 4] = [2, 4, 16, 64];

/// The rows of as many threads as there can be sessions.
static CROWD: [Row; 2] = [
    Row(Act::Hold, Plain::Nothing, 0, 48_000),
    Row(Act::HoldOwn, Plain::Nothing, 0, 48_000),
];

impl Row {
    /// The row as it is to be made by `threads` threads, in a manager of `sessions`, with `rounds` rounds.
    fn plan(&self, threads: u32, sessions: u32, rounds: u32) -> Plan {
        let Row(act, plain, micros, steps) = *self;
        let plan = Plan::of(act, sessions, 1, 0);
        Plan {
            name: plain.name().unwrap_or(plan.name),
            plain,
            threads,
            work: micros.saturating_mul(1_000),
            steps: steps.checked_div(threads).unwrap_or(0),
            rounds,
            compared: [Plain::Nothing, Plain::Nothing, Plain::Nothing],
            ..plan
        }
    }
}

/// Prints what each of `rows` takes, as `asked` for, for each number of `all_threads`, in a manager of
/// `sessions` in `rounds` rounds.
fn print_rows<R: Threads + Wait + Clock + CpuClock + AllocGlobal + Print + Sync>(
    rt: &R,
    rows: &[Row],
    asked: Asked,
    all_threads: &[u32],
    sessions: u32,
    rounds: u32,
) -> Result<()> {
    for threads in all_threads {
        println!(rt; "threads: {threads}")?;
        for row in rows {
            let mut line = Line::new(rt, row.plan(*threads, sessions, rounds), asked)?;
            play(rt, &mut line, asked.database)?;
            line.print_in_threads(rt, asked.check)?;
        }
    }
    Ok(())
}

/// Prints the heading of the page `name`: for a check, as `asked` says, the name alone.
fn print_heading<R: Print>(rt: &R, name: &str, asked: Asked) -> io::Result<()> {
    println!(rt; "{name}")?;
    if !asked.check {
        println!(rt; "    {HEADING}")?;
    }
    Ok(())
}

/// Prints the tables of times, or where `asked` is for a check what fewer of the same steps count; meanwhile
/// `progress` is shown.
pub fn print<R: Threads + Wait + Clock + CpuClock + AllocGlobal + Print + Eprint + Sync>(
    rt: &R,
    asked: Asked,
    progress: Progress,
) -> Result<()> {
    progress.note(rt, "up to four threads");
    print_heading(rt, "threads", asked)?;
    print_rows(
        rt,
        SHORT.as_slice(),
        asked,
        FEW_THREADS.as_slice(),
        4,
        ROUNDS as u32,
    )?;
    progress.note(rt, "a lock handed over");
    print_rows(
        rt,
        HANDOVER.as_slice(),
        asked,
        TWO_THREADS.as_slice(),
        2,
        ROUNDS as u32,
    )?;
    progress.note(rt, "many threads on one lock");
    print_rows(
        rt,
        CONTENDED.as_slice(),
        asked,
        MANY_THREADS.as_slice(),
        64,
        FEW_ROUNDS,
    )
}

/// Prints, as `asked` for, what as many threads as there can be sessions do that hold nothing for long: at
/// one object, and on one partition.
pub fn print_crowd<R: Threads + Wait + Clock + CpuClock + AllocGlobal + Print + Sync>(
    rt: &R,
    asked: Asked,
    sessions: u32,
) -> Result<()> {
    print_rows(
        rt,
        CROWD.as_slice(),
        asked,
        [sessions].as_slice(),
        sessions,
        FEW_ROUNDS,
    )
}
