//! Trials that are run with a pool, over any board.

ghost use Rattle.std.specs.Prelude.{◌≤◌};

use crate::allocator::{refuse, was_refused};
use crate::calls::{Outcome, ask, end_wait, make, queue};
use crate::told::Told;
use crate::trials::{DATABASE, Hold, TABLE, Trial, object};
use connections::{Connection, ManagerName, Pool};
use lock_manager::{Board, Call, Desk, Listing, Mode, OwnSession, Owner, Part, SlotRow, TableRow};
use std::alloc::Global;
use std::sync::Wait;

/// What is seen before and after a call: the modes that the asking session has the table in, how many rows a
/// listing has, what the table's strong lock counter shows, and whether the sessions that have the table in
/// the lock table come before those that have it in slots.
#[derive(Clone, Copy, PartialEq, Eq)]
struct Seen {
    held: u16,
    rows: usize,
    strong: u64,
    is_in_order: bool,
}

/// How many sessions come in `rows` before the first one that has the table in a slot.
fn before_slots(rows: &[SlotRow]) -> u16 {
    let mut before = 64u16;
    for row in rows {
        if row.tag == TABLE {
            before = before.min(row.session.number());
        }
    }
    before
}

/// How many sessions there are in `rows` up to the last one that has the table in the lock table.
fn up_to_table(rows: &[TableRow]) -> u16 {
    let mut up_to = 0u16;
    for row in rows {
        if row.tag == TABLE {
            up_to = up_to.max(row.session.number().saturating_add(1));
        }
    }
    up_to
}

/// How many rows `listing` has, and whether sessions that have the table in the lock table come before those
/// that have it in slots.
fn look_at(listing: &Listing) -> (usize, bool) {
    let rows = listing.fast.len().saturating_add(listing.table.len());
    let in_table = up_to_table(listing.table.as_slice());
    (rows, in_table <= before_slots(listing.fast.as_slice()))
}

/// Lists with `connection`, and answers what is seen.
fn see<B: Board<Part>, M: ManagerName, R: Wait>(rt: &R, connection: &mut Connection<B, M>) -> Seen {
    let held = connection.session.held(TABLE).mask();
    let strong = connection.session.strong_count(TABLE.strong_index());
    let (rows, is_in_order) = match connection.session.list(rt) {
        Ok(listing) => look_at(&listing),
        Err(_) => (0, false),
    };
    Seen {
        held,
        rows,
        strong,
        is_in_order,
    }
}

/// Takes a mode with `connection` on an object of its own for each number below `number`.
fn take_own<B: Board<Part>, M: ManagerName, R: Wait>(
    rt: &R,
    connection: &mut Connection<B, M>,
    number: u32,
) {
    'own: for place in 0..number {
        make(
            rt,
            connection,
            &Call::TryLock(object(place), Mode::RowShare, Owner::Session),
        );
    }
}

/// Asks `connection` for the request of `trial` with the growth numbered `growth` refused, and once more
/// after a refusal.
fn ask_twice<B: Board<Part>, M: ManagerName, R: Wait>(
    rt: &R,
    alloc: Global,
    connection: Connection<B, M>,
    trial: &Trial,
    growth: u16,
) -> (Connection<B, M>, Told) {
    let mut connection = connection;
    let before = see(rt, &mut connection);
    refuse(alloc, growth);
    let (mut connection, outcome) = ask(rt, connection, &trial.request);
    let refused = was_refused(alloc);
    let ran_out = outcome == Outcome::NoMemory;
    if !refused {
        return (
            connection,
            Told::of(false, ran_out, outcome == trial.outcome),
        );
    }
    let same = see(rt, &mut connection) == before;
    let (connection, again) = ask(rt, connection, &trial.request);
    let is_right = same && again == trial.outcome;
    (connection, Told::of(true, ran_out, is_right))
}

/// Opens with `pool` `waiters` connections, each of which waits for an object that `connection`, the asking
/// one of `trial`, has, or all for the awaited object of `trial`. Once all of them wait, `connection` asks,
/// with the growth numbered `growth` refused.
fn with_waiters<B: Board<Part>, D: Desk<OwnSession<Part, B>>, M: ManagerName, R: Wait>(
    rt: &R,
    alloc: Global,
    pool: &mut Pool<B, D, M>,
    connection: Connection<B, M>,
    trial: &Trial,
    waiters: u32,
    growth: u16,
) -> (Connection<B, M>, Told) {
    if waiters == 0 {
        return ask_twice(rt, alloc, connection, trial, growth);
    }
    let Ok(waiter) = pool.open(rt, DATABASE) else {
        return (connection, Told::Otherwise);
    };
    let awaited = trial.awaited.unwrap_or(object(waiters - 1));
    match queue(rt, waiter, awaited, Mode::Exclusive) {
        Ok((waiter, _)) => {
            pool.close(rt, waiter);
            (connection, Told::Otherwise)
        }
        Err(waiting) => {
            let answered = with_waiters(rt, alloc, pool, connection, trial, waiters - 1, growth);
            pool.close(rt, end_wait(rt, waiting));
            answered
        }
    }
}

/// Takes `hold`, if there is one, with `connection`, and answers whether the connection was granted that.
fn take<B: Board<Part>, M: ManagerName, R: Wait>(
    rt: &R,
    connection: &mut Connection<B, M>,
    hold: Option<Hold>,
) -> bool {
    match hold {
        Some((tag, mode)) => {
            let call = Call::TryLock(tag, mode, Owner::Transaction);
            make(rt, connection, &call) == Outcome::Granted
        }
        None => true,
    }
}

/// Opens with `pool` the other connections of `trial` from `place` on, which take what they are to have, and
/// after them the asking one, which takes its own objects and asks with the growth numbered `growth`
/// refused.
fn with_others<B: Board<Part>, D: Desk<OwnSession<Part, B>>, M: ManagerName, R: Wait>(
    rt: &R,
    alloc: Global,
    pool: &mut Pool<B, D, M>,
    trial: &Trial,
    place: usize,
    growth: u16,
) -> Told
    requires place { place ≤ 3 }
{
    let Ok(mut connection) = pool.open(rt, DATABASE) else {
        return Told::Otherwise;
    };
    if place == 3 {
        take_own(rt, &mut connection, trial.own);
        let (connection, told) = with_waiters(
            rt,
            alloc,
            pool,
            connection,
            trial,
            trial.waiters,
            growth,
        );
        pool.close(rt, connection);
        return told;
    }
    let has = take(rt, &mut connection, trial.others[place]);
    let told = with_others(rt, alloc, pool, trial, place + 1, growth);
    pool.close(rt, connection);
    if has { told } else { Told::Otherwise }
}

/// Runs `trial` with `pool`, which has nothing yet, with the growth numbered `growth` refused.
pub fn tell<B: Board<Part>, D: Desk<OwnSession<Part, B>>, M: ManagerName, R: Wait>(
    rt: &R,
    alloc: Global,
    pool: &mut Pool<B, D, M>,
    trial: &Trial,
    growth: u16,
) -> Told {
    with_others(rt, alloc, pool, trial, 0, growth)
}
