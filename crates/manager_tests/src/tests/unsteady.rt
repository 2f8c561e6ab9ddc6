//! Races on boards that pause now and then, before and after a step. So other sessions' steps come between
//! any two of a session, far more often than threads meet there by themselves.

ghost use Rattle.std.specs.Prelude.{◌≡◌, ◌≤◌, IfOk};
ghost use Rattle.shared_rule.specs.Opening.{AreNew};

use super::crews::{Crew, act};
use super::desk::append;
use super::gates::mixed;
use super::pair::Pair;
use super::races::{Race, race_often};
use super::watched::{Watch, WatchedBoard};
use connections::{Connection, ManagerName};
use lock_manager::{OwnSession, Part};
use lock_table::{PartTable, empty_parts};
use modes_core::SessionId;
use shared_rule::{
    Board, Kept, SeatBoard, SeatOpener, SharedTable, SharedWords, TableSizes, in_shelves, open,
};
use std::alloc::Global;
use std::marker::{Brand, PhantomData};
use std::process::Abort;
use std::sync::Wait;
use std::sync::atomic::{AtomicU64, Ordering};
use std::test::Fail;
use std::thread;
use std::thread::Threads;
use std::time::Clock;

const DATABASE: u32 = 5;

const MAX_LOCAL: u32 = 8;

/// How many groups of fast-path slots each session has.
const GROUPS: u8 = 2;

/// How many looks a short pause has at most, and a long one, which is longer than it takes to wake a thread.
const SHORT: u64 = 512;

const LONG: u64 = 65_536;

/// Pauses now and then. Its numbers look random, and are the same for each session at each run.
#[derive(Drop)]
struct Pauses {
    turn: AtomicU64,
}

impl Pauses {
    /// The pauses of the session numbered `number`.
    fn of(number: SessionId) -> Self {
        Pauses {
            turn: AtomicU64::new(u64::from(number.number()) << 32),
        }
    }

    /// Looks `looks` times at a number.
    fn spin(&self, looks: u64) {
        for _ in 0..looks {
            self.turn.load(Ordering::SeqCst);
        }
    }

    /// One pause in two is none, one in eight leaves the processor to others, and one in thirty-two is long.
    fn pause(&self) {
        let number = mixed(self.turn.fetch_add(1, Ordering::SeqCst));
        let looks = number >> 8;
        match number % 64 {
            0..=1 => self.spin(looks % LONG),
            2..=9 => thread::yield_now(),
            10..=31 => self.spin(looks % SHORT),
            _ => {}
        }
    }
}

impl Watch for Pauses {
    fn before(&self) {
        self.pause();
    }

    fn after(&self) {
        self.pause();
    }
}

/// A board of the shared table that pauses.
type Unsteady<'a> = WatchedBoard<SeatBoard<'a, Part>, Pauses>;

/// Sixteen empty partitions, each on its shelf of a table for `sessions` sessions.
fn empty_shelves(alloc: Global, sessions: u16) -> Result<Vec<Kept<Part>>, Fail>
    ensures new { let T = ⟦<Part as PartTable>⟧ in IfOk result (λ shelves. AreNew T.content T.begun sessions shelves.items) }
{
    Ok(in_shelves(alloc, empty_parts(alloc, Part::new)?, sessions)?)
}

/// A table for `sessions` sessions, and the opener that gives their numbers out.
fn open_table(alloc: Global, sessions: u16) -> Result<(SharedTable<Part>, SeatOpener<Part>), Fail>
    requires few { sessions ≤ 64 }
    ensures table { IfOk result (λ opened. opened.1.table ≡ opened.0.shared.table_id) }
    ensures key { IfOk result (λ opened. (opened.1.limit ≡ opened.0.shared.key.sessions)
        × (opened.1.groups ≡ opened.0.shared.key.groups)) }
    ensures limit { IfOk result (λ opened. opened.1.limit ≡ sessions) }
{
    let sizes = TableSizes {
        sessions,
        groups: GROUPS,
    };
    match open(alloc, &sizes, empty_shelves(alloc, sessions)?) {
        Ok(opened) => Ok(opened),
        Err(_) => Err("out of memory".into()),
    }
}

/// Opens and closes the sessions at `table`, of the manager that `M` names, on boards that pause.
#[derive(Drop)]
struct Opening<'a, M: ManagerName> {
    table: &'a SharedWords<Part>,
    opener: SeatOpener<Part>,
    of: PhantomData<M>,
    ghost own: { (opener.table ≡ table.now.table_id) × (opener.limit ≡ table.now.key.sessions)
        × (opener.groups ≡ table.now.key.groups) },
    ghost few: { opener.limit ≤ 64 },
    ghost is: { opener.table ≡ M.manager.table },
}

impl<'a, M: ManagerName> Opening<'a, M> {
    /// Opens the next session.
    fn open<R: Abort>(&mut self, rt: &R, alloc: Global) -> Connection<Unsteady<'a>, M> {
        let board = self.opener.session(self.table).expect(rt, "a session");
        let pauses = Pauses::of(board.number());
        match OwnSession::over(
            alloc,
            WatchedBoard::over(board, pauses),
            DATABASE,
            MAX_LOCAL,
        ) {
            Ok(session) => Connection::new(session, 0),
            Err(_) => panic!(rt; "no memory for a session"),
        }
    }

    /// Opens `number` sessions, in the order of their numbers.
    fn open_all<R: Abort>(
        &mut self,
        rt: &R,
        alloc: Global,
        number: u16,
    ) -> Vec<Connection<Unsteady<'a>, M>> {
        let mut connections = Vec::new(alloc);
        for _ in 0..number {
            let connection = self.open(rt, alloc);
            append(rt, &mut connections, connection);
        }
        connections
    }

    /// Closes the session of `connection`: all that it holds is released, and its number is that of a closed
    /// one.
    fn close<R: Wait>(&mut self, rt: &R, connection: Connection<Unsteady<'a>, M>) {
        let board = connection.into_session().into_board(rt);
        self.opener.close(board.into_watched());
    }

    /// Closes the sessions of all `connections`.
    fn close_all<R: Wait>(&mut self, rt: &R, mut connections: Vec<Connection<Unsteady<'a>, M>>) {
        'connections: while let Some(connection) = connections.pop() {
            self.close(rt, connection);
        }
        connections.destroy_empty();
    }
}

/// What sessions do on boards that pause.
#[derive(Clone, Copy)]
pub enum Paused {
    /// Two of them race, for this number of rounds.
    Race(Race, u32),
    /// As many as this crew has, but no more than 64, do what it does.
    Crew(Crew),
}

impl Paused {
    /// How many sessions there are.
    fn sessions(self) -> u16
        ensures { result ≤ 64 }
    {
        match self {
            Paused::Race(_, _) => 2,
            Paused::Crew(crew) => crew.sessions().min(64) as u16,
        }
    }
}

/// Has the two sessions of `connections` play `rounds` rounds of `race`.
fn race_two<B: Board<Part> + Send, M: ManagerName + Send, R: Abort + Threads + Wait + Sync + Print>(
    rt: &R,
    connections: &mut Vec<Connection<B, M>>,
    race: Race,
    rounds: u32,
) {
    let first = connections.pop().expect(rt, "a session");
    let second = connections.pop().expect(rt, "a session");
    let Pair { first, second } = race_often(rt, Pair { first, second }, race, rounds);
    append(rt, connections, second);
    append(rt, connections, first);
}

/// Has those of `connections` do what `paused` says.
fn play<
    B: Board<Part> + Send,
    M: ManagerName + Send,
    R: Abort + Clock + Threads + Wait + Sync + Print,
>(rt: &R, connections: &mut Vec<Connection<B, M>>, paused: Paused) {
    match paused {
        Paused::Race(race, rounds) => race_two(rt, connections, race, rounds),
        Paused::Crew(crew) => act(rt, connections.as_mut_slice(), crew),
    }
}

/// Has sessions at `table`, which `opener` gives out, of the manager that `M` names, do what `paused` says.
fn play_at<M: ManagerName + Send, R: Abort + Clock + Threads + Wait + Sync + Print>(
    rt: &R,
    alloc: Global,
    table: &SharedWords<Part>,
    opener: SeatOpener<Part>,
    paused: Paused,
)
    requires own { (opener.table ≡ table.now.table_id) × (opener.limit ≡ table.now.key.sessions)
        × (opener.groups ≡ table.now.key.groups) }
    requires few { opener.limit ≤ 64 }
    requires is { opener.table ≡ M.manager.table }
{
    let mut opening = Opening::<M> {
        table,
        opener,
        of: PhantomData,
    };
    let mut connections = opening.open_all(rt, alloc, paused.sessions());
    play(rt, &mut connections, paused);
    opening.close_all(rt, connections);
}

/// Has sessions do what `paused` says at a table of their own, on boards that pause. This function picks the
/// manager that the types of their connections name.
pub fn play_with_pauses<R: Abort + Clock + Threads + Wait + Sync + Print>(
    rt: &R,
    alloc: Global,
    paused: Paused,
) -> Result<(), Fail> {
    let (table, opener) = open_table(alloc, paused.sessions())?;
    play_at::<Brand, R>(rt, alloc, &table.shared, opener, paused);
    Ok(())
}
