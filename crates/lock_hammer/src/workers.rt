//! The workers of a hammer: what each session does in its thread, and what they take at the end.

ghost use Rattle.std.specs.Prelude.{◌≡◌, length};

use crate::progress::Progress;
use connections::{Connection, ManagerName};
use lock_manager::{Answer, Board, Call, Mode, Owner, Part, Refusal, Tag};
use lock_script::Fault;
use lock_table::NoMemory;
use std::sync::Wait;
use std::sync::atomic::{AtomicBool, Ordering};
use std::thread::{Threads, for_each_mut};

/// The database of all sessions of a hammer.
pub const DATABASE: u32 = 5;

/// The number of the first relation that the sessions of a hammer lock. They lock `RELATIONS` relations with
/// numbers in a row.
const FIRST_RELATION: u32 = 16_384;

const RELATIONS: u32 = 4;

/// Out of how many rounds a worker waits for its lock in one. In the others it is refused where something is
/// in the way.
const PATIENCE: u32 = 16;

/// What a worker of a hammer passes before its first round.
pub trait Gate {
    /// Whether `worker` may begin. Workers are numbered from 0, as their sessions are.
    fn pass(&self, worker: u32) -> bool;
}

/// A gate that lets every worker pass.
#[derive(Drop)]
pub struct OpenGate;

impl Gate for OpenGate {
    fn pass(&self, _worker: u32) -> bool {
        true
    }
}

/// What the workers of a hammer report.
#[derive(Drop)]
pub struct Reports<'a, P> {
    /// Whether a gate didn't let one of the workers pass.
    is_held: AtomicBool,
    /// Whether a call of one of the workers was refused memory.
    is_short: AtomicBool,
    /// What counts the rounds that the workers have played.
    progress: &'a P,
}

impl<'a, P: Progress> Reports<'a, P> {
    /// Reports to which no worker has reported yet, and which count each round with `progress`.
    pub fn new(progress: &'a P) -> Self {
        Reports {
            is_held: AtomicBool::new(false),
            is_short: AtomicBool::new(false),
            progress,
        }
    }

    /// Notes that a gate didn't let a worker pass.
    fn hold(&self) {
        self.is_held.store(true, Ordering::SeqCst);
    }

    /// Notes that a call of a worker was refused memory.
    fn run_short(&self) {
        self.is_short.store(true, Ordering::SeqCst);
    }

    /// Counts that a worker has played a round.
    fn count_round(&self) {
        self.progress.count_round();
    }

    /// Ends the progress, once all workers have ended, and answers the fault that they come to.
    fn end(&self) -> Result<(), Fault> {
        self.progress.end();
        self.outcome()
    }

    /// The fault that the workers have come to: a gate that didn't let one pass, or refused memory.
    fn outcome(&self) -> Result<(), Fault> {
        if self.is_held.load(Ordering::SeqCst) {
            Err(Fault::GateHeld)
        } else if self.is_short.load(Ordering::SeqCst) {
            Err(Fault::NoMemory)
        } else {
            Ok(())
        }
    }
}

/// The relation that round number `round` takes.
fn relation(round: u32) -> Tag {
    Tag::relation(DATABASE, FIRST_RELATION + round % RELATIONS)
}

/// Has those of `crew` play `rounds` rounds, each in a thread of its own and once `gate` lets it pass, and
/// take their last locks. The workers report to `reports`. Answers the fault that they come to.
pub fn play<
    B: Board<Part> + Send,
    M: ManagerName + Send,
    G: Gate + Sync,
    P: Progress + Sync,
    R: Threads + Wait + Sync,
>(
    rt: &R,
    gate: &G,
    reports: &Reports<P>,
    rounds: u32,
    crew: &mut Vec<Connection<B, M>>,
) -> Result<(), Fault>
    ensures as_many { length crew.new.items ≡ length crew.old.items }
{
    work_and_take(rt, gate, reports, rounds, crew.as_mut_slice())
}

/// Has those of `crew` play and take their last locks, as `play` does.
fn work_and_take<
    B: Board<Part> + Send,
    M: ManagerName + Send,
    G: Gate + Sync,
    P: Progress + Sync,
    R: Threads + Wait + Sync,
>(
    rt: &R,
    gate: &G,
    reports: &Reports<P>,
    rounds: u32,
    crew: &mut [Connection<B, M>],
) -> Result<(), Fault> {
    let threads = crew.len().max(1);
    for_each_mut(
        rt,
        crew,
        threads,
        &|_, connection| work(rt, gate, reports, rounds, connection),
    );
    reports.end()?;
    take_last(rt, reports, crew);
    reports.outcome()
}

/// Has each of `crew` in turn take a weak mode, and then the first one a strong mode, and report to
/// `reports`. Nothing is in the way of either, and they keep them.
fn take_last<B: Board<Part>, M: ManagerName, P: Progress, R: Wait>(
    rt: &R,
    reports: &Reports<P>,
    crew: &mut [Connection<B, M>],
) {
    let weak = Call::TryLock(relation(0), Mode::AccessShare, Owner::Transaction);
    for connection in crew.iter_mut() {
        take(rt, reports, connection, &weak);
    }
    if let Some(first) = crew.first_mut() {
        let strong = Call::TryLock(relation(1), Mode::Share, Owner::Transaction);
        take(rt, reports, first, &strong);
    }
}

/// Has the worker of `connection` ask `gate` once and then play its `rounds`, as long as there is memory, and
/// report to `reports`.
fn work<B: Board<Part>, M: ManagerName, G: Gate, P: Progress, R: Wait>(
    rt: &R,
    gate: &G,
    reports: &Reports<P>,
    rounds: u32,
    connection: &mut Connection<B, M>,
) {
    let worker = u32::from(connection.session.id().number());
    if !gate.pass(worker) {
        reports.hold();
        return;
    }
    'rounds: for round in 0..rounds {
        if play_round(rt, worker, round, connection).is_err() {
            reports.run_short();
            return;
        }
        reports.count_round();
    }
}

/// Plays `round`: `worker` has `connection` ask for a mode on a relation, and gives back what it was granted.
/// In the last of every sixteen rounds it waits where something is in the way, and in the others it is
/// refused then.
fn play_round<B: Board<Part>, M: ManagerName, R: Wait>(
    rt: &R,
    worker: u32,
    round: u32,
    connection: &mut Connection<B, M>,
) -> Result<(), NoMemory> {
    let tag = relation(round);
    let mode = Mode::ALL[((worker % 8 + round % 8) % 8) as usize];
    let owner = Owner::Transaction;
    let call = if round % PATIENCE == PATIENCE - 1 {
        Call::Acquire(tag, mode, owner)
    } else {
        Call::TryLock(tag, mode, owner)
    };
    if ask(rt, connection, &call)? {
        let _released = connection.session.unlock(rt, tag, mode, owner);
    }
    Ok(())
}

/// Whether `connection` is granted what `call` asks for. The error is refused memory.
fn ask<B: Board<Part>, M: ManagerName, R: Wait>(
    rt: &R,
    connection: &mut Connection<B, M>,
    call: &Call,
) -> Result<bool, NoMemory> {
    match connection.session.make(rt, *call) {
        Answer::Acquired(Ok(_)) => Ok(true),
        Answer::Acquired(Err(Refusal::NoMemory)) => Err(NoMemory),
        _ => Ok(false),
    }
}

/// Has `connection` make `call`, a request, and reports to `reports`.
fn take<B: Board<Part>, M: ManagerName, P: Progress, R: Wait>(
    rt: &R,
    reports: &Reports<P>,
    connection: &mut Connection<B, M>,
    call: &Call,
) {
    if ask(rt, connection, call).is_err() {
        reports.run_short();
    }
}
