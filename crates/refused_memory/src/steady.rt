//! Two connections that do the same over and over, over any board: once they have done it, nothing grows any
//! more.

use crate::allocator::{refuse_all, was_refused};
use crate::calls::Outcome::{Conflict, Granted, Released};
use crate::calls::{Outcome, end_wait, make, queue};
use crate::told::Told;
use crate::trials::{ANOTHER_TABLE, DATABASE, OBJECT, TABLE, object};
use connections::{Connection, ManagerName, Pool, WaitingConnection};
use lock_manager::Call::{TryLock, Unlock};
use lock_manager::Mode::{AccessExclusive, AccessShare, Exclusive, RowExclusive, Share};
use lock_manager::Owner::Transaction;
use lock_manager::{Board, Call, Desk, OwnSession, Owner, Part};
use std::alloc::Global;
use std::sync::Wait;

/// How many rounds two sessions play after the first one.
pub const ROUNDS: u32 = 100_000;

/// A turn of a round: whether the first session makes the call, or else the second one, the call, and what is
/// to come of it.
type Turn = (bool, Call, Outcome);

/// The turns of a round, which a wait follows. The first session has a lock all the while.
const TURNS: [Turn; 17] = [
    // First in, first out: by a slot, an object, and a strong mode.
    (true, TryLock(TABLE, RowExclusive, Transaction), Granted),
    (true, TryLock(OBJECT, Exclusive, Transaction), Granted),
    (true, TryLock(ANOTHER_TABLE, Share, Transaction), Granted),
    (true, Unlock(TABLE, RowExclusive, Transaction), Released),
    (true, Unlock(OBJECT, Exclusive, Transaction), Released),
    (true, Unlock(ANOTHER_TABLE, Share, Transaction), Released),
    // Last in, first out.
    (true, TryLock(TABLE, RowExclusive, Transaction), Granted),
    (true, TryLock(OBJECT, Exclusive, Transaction), Granted),
    (true, TryLock(ANOTHER_TABLE, Share, Transaction), Granted),
    (true, Unlock(ANOTHER_TABLE, Share, Transaction), Released),
    (true, Unlock(OBJECT, Exclusive, Transaction), Released),
    (true, Unlock(TABLE, RowExclusive, Transaction), Released),
    // A strong mode moves the other session's weak one out of its slot, and the next one of both goes by the
    // table.
    (true, TryLock(TABLE, AccessShare, Transaction), Granted),
    (
        false,
        TryLock(ANOTHER_TABLE, AccessShare, Transaction),
        Granted,
    ),
    (
        false,
        TryLock(TABLE, AccessExclusive, Transaction),
        Conflict(0, AccessShare),
    ),
    (
        true,
        TryLock(ANOTHER_TABLE, AccessExclusive, Transaction),
        Conflict(1, AccessShare),
    ),
    (true, TryLock(OBJECT, Exclusive, Transaction), Granted),
];

/// Plays all turns of a round with `first` and `second`, and answers whether they went as they are to.
fn turns_go<B: Board<Part>, M: ManagerName, R: Wait>(
    rt: &R,
    first: &mut Connection<B, M>,
    second: &mut Connection<B, M>,
) -> bool {
    let mut all = true;
    for (is_first, call, right) in &TURNS {
        let outcome = if *is_first {
            make(rt, first, call)
        } else {
            make(rt, second, call)
        };
        all = all && outcome == *right;
    }
    all
}

/// Ends the wait `waiting`, and answers whether the wait was granted.
fn is_granted<B: Board<Part>, M: ManagerName, R: Wait>(
    rt: &R,
    waiting: WaitingConnection<B, M>,
) -> (Connection<B, M>, bool) {
    match waiting.poll().into_parts() {
        Ok(connection) => (connection, true),
        Err((waiting, _)) => (end_wait(rt, waiting), false),
    }
}

/// Has `second` wait for the object that `first` has, and `first` commit.
fn hand_over<B: Board<Part>, M: ManagerName, R: Wait>(
    rt: &R,
    first: &mut Connection<B, M>,
    second: Connection<B, M>,
) -> (Connection<B, M>, bool) {
    match queue(rt, second, OBJECT, Exclusive) {
        Ok((second, _)) => (second, false),
        Err(waiting) => {
            commit(rt, first);
            is_granted(rt, waiting)
        }
    }
}

/// Ends the transaction of `connection`.
fn commit<B: Board<Part>, M: ManagerName, R: Wait>(rt: &R, connection: &mut Connection<B, M>) {
    connection.session.commit(rt);
}

/// Plays `rounds` rounds with `first` and `second`, and answers whether they went as they are to.
fn go_rounds<B: Board<Part>, M: ManagerName, R: Wait>(
    rt: &R,
    first: &mut Connection<B, M>,
    second: Connection<B, M>,
    rounds: u32,
) -> (Connection<B, M>, bool) {
    let mut second = second;
    let mut all = true;
    'rounds: for _ in 0..rounds {
        let turned = turns_go(rt, first, &mut second);
        let (back, handed) = hand_over(rt, first, second);
        second = back;
        commit(rt, &mut second);
        all = all && turned && handed;
    }
    (second, all)
}

/// Plays one round with `first` and `second`, and then the others with every growth refused. No growth is
/// asked for.
fn go_on<B: Board<Part>, M: ManagerName, R: Wait>(
    rt: &R,
    alloc: Global,
    first: &mut Connection<B, M>,
    second: Connection<B, M>,
) -> (Connection<B, M>, Told) {
    let kept = make(rt, first, &TryLock(object(0), Share, Owner::Session)) == Granted;
    let (second, went) = go_rounds(rt, first, second, 1);
    refuse_all(alloc);
    let (second, all) = go_rounds(rt, first, second, ROUNDS);
    let refused = was_refused(alloc);
    (second, Told::of(refused, false, kept && went && all))
}

/// Has two connections of `pool` play their rounds.
pub fn tell<B: Board<Part>, D: Desk<OwnSession<Part, B>>, M: ManagerName, R: Wait>(
    rt: &R,
    alloc: Global,
    pool: &mut Pool<B, D, M>,
) -> Told {
    let Ok(mut first) = pool.open(rt, DATABASE) else {
        return Told::Otherwise;
    };
    let told = match pool.open(rt, DATABASE) {
        Ok(second) => {
            let (second, told) = go_on(rt, alloc, &mut first, second);
            pool.close(rt, second);
            told
        }
        Err(_) => Told::Otherwise,
    };
    pool.close(rt, first);
    told
}
