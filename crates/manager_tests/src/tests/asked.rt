//! A session waits in its thread for what another one has, which gives it back while a third one asks it to
//! cancel.

use super::answers::Answer;
use super::gates::{Gate, Wins};
use super::sessions::{acquire, commit};
use super::side_by_side::{Play, play_side_by_side};
use super::waits::{OWNER, TABLE, give_back, see_wait, take};
use connections::{Connection, ManagerName};
use lock_manager::{Acquired, Board, Mode, Part, Refusal, SessionId};
use std::process::Abort;
use std::sync::Wait;
use std::thread::Threads;
use std::time::Clock;

/// How many sessions a race has: by number, the holder, the session that waits, and the one that asks it to
/// cancel.
pub const SESSIONS: u32 = 3;

/// What the three threads of a race have together.
#[derive(Drop)]
struct Ring {
    rounds: u32,
    /// Where all three threads of a race meet, twice a round.
    all: Gate,
    /// Where the holder and the one that asks meet once the wait shows.
    two: Gate,
    /// How often the wait of the race was granted, and how often cancelled.
    wins: Wins,
    waiter: SessionId,
}

impl Ring {
    /// What the threads have together for `rounds` rounds, none of which is played yet.
    fn of<R: Abort>(rt: &R, rounds: u32) -> Ring {
        Ring {
            rounds,
            all: Gate::new(),
            two: Gate::new(),
            wins: Wins::none(),
            waiter: SessionId::new(1).expect(rt, "a session number"),
        }
    }
}

/// Ends the test where `answer`, to the session that waits, doesn't fit `count`, how often it has the mode,
/// and notes in `wins` which side won.
fn expect_fit<R: Abort>(rt: &R, wins: &Wins, answer: Answer, count: u16) {
    match answer {
        Ok(Acquired::Granted) => wins.first(),
        Err(Refusal::Cancelled) => wins.second(),
        _ => panic!(rt; "answered otherwise"),
    }
    assert_eq!(rt; count, u16::from(answer.is_ok()));
}

/// Has `connection` sleep until it is granted or asked to cancel, and notes in `ring` which of the two came.
fn wait_or_leave<B: Board<Part>, M: ManagerName, R: Abort + Wait>(
    rt: &R,
    ring: &Ring,
    connection: &mut Connection<B, M>,
) {
    let answer = acquire(rt, connection, TABLE, Mode::AccessShare, OWNER);
    let count = connection
        .session
        .owner_count(TABLE, Mode::AccessShare, OWNER);
    expect_fit(rt, &ring.wins, answer, count);
    commit(rt, connection);
}

/// Plays the holder, which gives back in round `round`.
fn release<B: Board<Part>, M: ManagerName, R: Abort + Wait>(
    rt: &R,
    ring: &Ring,
    connection: &mut Connection<B, M>,
    round: u32,
) {
    see_wait(rt, connection, ring.waiter);
    ring.two.pass(rt, round, 0);
    give_back(rt, connection, Mode::AccessExclusive);
}

/// Plays the third session, which asks to cancel in round `round`.
fn ask<B: Board<Part>, M: ManagerName, R: Wait>(
    rt: &R,
    ring: &Ring,
    connection: &mut Connection<B, M>,
    round: u32,
) {
    see_wait(rt, connection, ring.waiter);
    ring.two.pass(rt, round, 1);
    connection.session.ask_cancel(ring.waiter);
}

/// Takes with `connection`, where `number` says that it is the holder, the mode that is to be in the way of
/// the session that waits.
fn prepare<B: Board<Part>, M: ManagerName, R: Abort + Wait>(
    rt: &R,
    connection: &mut Connection<B, M>,
    number: u16,
) {
    if number == 0 {
        take(rt, connection, Mode::AccessExclusive);
    }
}

/// Does what the session numbered `number` does in round `round`.
fn act<B: Board<Part>, M: ManagerName, R: Abort + Wait>(
    rt: &R,
    ring: &Ring,
    connection: &mut Connection<B, M>,
    number: u16,
    round: u32,
) {
    match number {
        0 => release(rt, ring, connection, round),
        1 => wait_or_leave(rt, ring, connection),
        _ => ask(rt, ring, connection, round),
    }
}

/// Plays round `round` of the session numbered `number`.
fn play_round<B: Board<Part>, M: ManagerName, R: Abort + Wait>(
    rt: &R,
    ring: &Ring,
    connection: &mut Connection<B, M>,
    number: u16,
    round: u32,
) {
    prepare(rt, connection, number);
    ring.all.come(rt, 3);
    act(rt, ring, connection, number, round);
    ring.all.come(rt, 3);
}

impl Play for Ring {
    /// Plays all rounds of `connection`.
    fn play<B: Board<Part>, M: ManagerName, R: Abort + Clock + Wait>(
        &self,
        rt: &R,
        connection: &mut Connection<B, M>,
    ) {
        let number = connection.session.id().number();
        for round in 0..self.rounds {
            play_round(rt, self, connection, number, round);
        }
    }
}

/// Has the three `connections` race for `rounds` rounds. Both ends of the wait come about.
pub fn race_three<
    B: Board<Part> + Send,
    M: ManagerName + Send,
    R: Abort + Clock + Threads + Wait + Sync + Print,
>(rt: &R, connections: &mut [Connection<B, M>], rounds: u32) {
    let ring = Ring::of(rt, rounds);
    play_side_by_side(rt, &ring, connections);
    ring.wins
        .expect_both(rt, "a release against a request to cancel");
}
