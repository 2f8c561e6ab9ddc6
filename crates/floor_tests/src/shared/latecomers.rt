//! A session holds a lightweight lock and puts it back just as another one, which came for it, goes on its
//! way from its last attempt to the lock's wait list. There no release wakes it. So it attempts once more
//! after that, and nobody is left asleep.

ghost use Rattle.std.specs.Prelude.{◌<◌};
ghost use Rattle.floor_tests.specs.Rests.{Rests, RestsAgain};

mod rounds;

use lock_table::{Move, PartTable, PlainPart};
use modes_core::SessionId;
use rounds::{ROUNDS, Role, Round, Rounds, round_of};
use shared_rule::Board;
use std::process::Abort;
use std::sync::Wait;
use std::thread::{Threads, join_mut};
use std::time::Clock;

/// How often two threads begin for a lock. Threads that begin are given processors of their own; later on a
/// session that is woken often shares the waker's, and then no step of one falls between two of the other.
const BEGINNINGS: u64 = 2_500;

/// The partition that two sessions race for.
const PART: u8 = 3;

/// A lightweight lock that two sessions race for, and how one of them takes it.
#[derive(Clone, Copy)]
enum Lock {
    Partition,
    Slots,
    /// The lock of slots, which the session shares.
    SharedSlots,
}

/// How each of the two sessions of a race takes the lock.
#[derive(Clone, Copy)]
struct Locks {
    /// The lock as the first session holds it.
    held: Lock,
    /// How the second session, which comes late, takes the lock that the first one has.
    wanted: Lock,
}

static RACES: [Locks; 3] = [
    Locks {
        held: Lock::Partition,
        wanted: Lock::Partition,
    },
    Locks {
        held: Lock::Slots,
        wanted: Lock::Slots,
    },
    Locks {
        held: Lock::Slots,
        wanted: Lock::SharedSlots,
    },
];

/// One of the two sessions of a race: how it takes the lock, and when.
#[derive(Clone, Copy)]
struct Racer<'a> {
    lock: Lock,
    role: Role,
    rounds: &'a Rounds,
}

/// Takes `lock` by `board` in `round`, and puts it back; where it is of slots, of those of `owner`.
fn visit<T: PartTable, B: Board<T>, R: Abort + Clock + Wait>(
    rt: &R,
    board: &mut B,
    owner: SessionId,
    lock: Lock,
    round: &Round,
)
    requires exists { owner < (B.seat board.old).limit }
    requires rests { Rests B.view B.stack board.old }
    ensures rests { RestsAgain B.view B.stack B.seat board.old board.new }
{
    round.begin(rt);
    let came_soon = match lock {
        Lock::Partition => {
            let content = board.take_part(rt, PART);
            let came_soon = round.stay(rt);
            board.put_part(PART, &Move::Keep, content);
            came_soon
        }
        Lock::Slots => {
            board.take_fast(rt, owner);
            let came_soon = round.stay(rt);
            board.put_fast(owner);
            came_soon
        }
        Lock::SharedSlots => {
            board.share_fast(rt, owner);
            let came_soon = round.stay(rt);
            board.unshare_fast(owner);
            came_soon
        }
    };
    round.end(rt, came_soon);
}

/// Takes the lock of `racer` by `board`, and puts it back, in each round of `beginning`; where it is of
/// slots, of those of `owner`.
fn visit_some<T: PartTable, B: Board<T>, R: Abort + Clock + Wait>(
    rt: &R,
    board: &mut B,
    owner: SessionId,
    racer: &Racer,
    beginning: u64,
)
    requires exists { owner < (B.seat board.old).limit }
    requires rests { Rests B.view B.stack board.old }
    ensures rests { RestsAgain B.view B.stack B.seat board.old board.new }
{
    'rounds: for place in 1..=ROUNDS {
        let round = Round {
            rounds: racer.rounds,
            number: round_of(beginning, place),
            role: racer.role,
        };
        visit(rt, board, owner, racer.lock, &round);
    }
}

/// Has `first` and `second` race for a lock, which they take as `locks` says, with threads that begin over
/// and over; where the lock is of slots, of those of `owner`.
fn race_for<B: Board<PlainPart> + Send, R: Abort + Clock + Threads + Wait + Sync>(
    rt: &R,
    first: &mut B,
    second: &mut B,
    owner: SessionId,
    locks: &Locks,
)
    requires exists { (owner < (B.seat first.old).limit) × (owner < (B.seat second.old).limit) }
    requires first { Rests B.view B.stack first.old }
    requires second { Rests B.view B.stack second.old }
    ensures first { RestsAgain B.view B.stack B.seat first.old first.new }
    ensures second { RestsAgain B.view B.stack B.seat second.old second.new }
{
    let rounds = &Rounds::new();
    let holder = Racer {
        lock: locks.held,
        role: Role::Holder,
        rounds,
    };
    let latecomer = Racer {
        lock: locks.wanted,
        role: Role::Latecomer,
        rounds,
    };
    'beginnings: for beginning in 0..BEGINNINGS {
        join_mut(
            rt,
            &mut || visit_some(rt, first, owner, &holder, beginning),
            &mut || visit_some(rt, second, owner, &latecomer, beginning),
        );
    }
}

/// Has `first` and `second` race for each lock, that of the slots of `owner` among them.
pub fn race<B: Board<PlainPart> + Send, R: Abort + Clock + Threads + Wait + Sync>(
    rt: &R,
    first: &mut B,
    second: &mut B,
    owner: SessionId,
)
    requires exists { (owner < (B.seat first.old).limit) × (owner < (B.seat second.old).limit) }
    requires first { Rests B.view B.stack first.old }
    requires second { Rests B.view B.stack second.old }
    ensures first { RestsAgain B.view B.stack B.seat first.old first.new }
    ensures second { RestsAgain B.view B.stack B.seat second.old second.new }
{
    'races: for locks in &RACES {
        race_for(rt, first, second, owner, locks);
    }
}
