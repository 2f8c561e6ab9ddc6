//! Connections that come and go: once the first one has gone, nothing grows any more.

use crate::allocator::{refuse_all, was_refused};
use crate::calls::Outcome::Granted;
use crate::calls::make;
use crate::told::Told;
use crate::trials::{ANOTHER_TABLE, DATABASE, TABLE, object};
use connections::{Connection, ManagerName, Pool};
use lock_manager::Call::TryLock;
use lock_manager::Mode::{AccessExclusive, Exclusive, RowExclusive};
use lock_manager::Owner::{Session, Transaction};
use lock_manager::{Board, Desk, OwnSession, Part};
use std::alloc::Global;
use std::sync::Wait;

/// How many connections come and go after the first one.
pub const LIVES: u32 = 1_000_000;

/// Takes locks with `connection`, and leaves them to its end: one by a slot, one on an object, and a strong
/// mode on a table of the session's own. Answers whether all were granted newly.
fn take<B: Board<Part>, M: ManagerName, R: Wait>(
    rt: &R,
    connection: &mut Connection<B, M>,
) -> bool {
    let weak = make(rt, connection, &TryLock(TABLE, RowExclusive, Transaction));
    let of_object = make(rt, connection, &TryLock(object(1), Exclusive, Transaction));
    let strong = make(
        rt,
        connection,
        &TryLock(ANOTHER_TABLE, AccessExclusive, Session),
    );
    weak == Granted && of_object == Granted && strong == Granted
}

/// Has `lives` connections of `pool` come and go, one after another, and answers whether each got a session
/// and took its locks.
fn live_often<B: Board<Part>, D: Desk<OwnSession<Part, B>>, M: ManagerName, R: Wait>(
    rt: &R,
    pool: &mut Pool<B, D, M>,
    lives: u32,
) -> bool {
    let mut all = true;
    'lives: for _ in 0..lives {
        let Ok(mut connection) = pool.open(rt, DATABASE) else {
            return false;
        };
        let took = take(rt, &mut connection);
        pool.close(rt, connection);
        all = all && took;
    }
    all
}

/// Has a connection of `pool` come and go, and then all others with every growth by `alloc` refused. No
/// growth is asked for.
pub fn tell<B: Board<Part>, D: Desk<OwnSession<Part, B>>, M: ManagerName, R: Wait>(
    rt: &R,
    alloc: Global,
    pool: &mut Pool<B, D, M>,
) -> Told {
    let went = live_often(rt, pool, 1);
    refuse_all(alloc);
    let all = live_often(rt, pool, LIVES);
    let refused = was_refused(alloc);
    Told::of(refused, false, went && all)
}
