//! The driver of all rows: opens a manager with the sessions of a row, has them make its rounds, and closes
//! them.

ghost use Rattle.std.specs.Prelude.{◌≡◌, length, IfSome, IsSome, IsSomeAnd};
ghost use Rattle.connections.specs.Managers.{manager_in};
ghost use Rattle.connections.specs.Shown.{ShowsSessions};

use crate::doors::commit;
use crate::job::Job;
use crate::line::Line;
use crate::plain::Plain;
use crate::round::{Round, Taken};
use crate::steps::{lock_all, make_steps};
use anyhow::Result;
use connections::{Connection, DeskOf, ManagerName};
use lock_manager::{Board, Config, Desk, Manager, ManagerDesk, OwnSession, Part};
use std::marker::Brand;
use std::sync::Wait;
use std::thread::{Threads, for_each_mut};
use std::time::{Clock, CpuClock};

/// How many entries the local lock table of a session may have.
const MAX_LOCAL: u32 = 65_536;

/// Makes the part of `round` that the session with the number `number` has, by `connection`, which holds
/// nothing at its end.
fn make_part<B: Board<Part>, M: ManagerName, R: Wait + Clock + CpuClock>(
    rt: &R,
    connection: &mut Connection<B, M>,
    number: usize,
    round: &Round<'_>,
) {
    if !round.job.keys_of(number).is_empty() {
        let start = round.begin(rt);
        let steps = make_steps(rt, connection, number, round);
        round.end(rt, start, steps);
    }
    commit(rt, connection);
}

/// Takes by `connection`, whose session has the number `number`, what it holds throughout in a round of
/// `job`.
fn hold<B: Board<Part>, M: ManagerName, R: Wait>(
    rt: &R,
    connection: &mut Connection<B, M>,
    number: usize,
    job: &Job,
) {
    let _ = lock_all(rt, connection, job.held_by(number));
}

/// Has each of `crew` take what it holds throughout in a round of `job`.
fn hold_all<B: Board<Part> + Send, M: ManagerName + Send, R: Threads + Wait + Sync>(
    rt: &R,
    crew: &mut [Connection<B, M>],
    job: &Job,
) {
    for_each_mut(
        rt,
        crew,
        1,
        &|number, connection| hold(rt, connection, number, job),
    );
}

/// Has each of `crew` make its part of `round`, beside the others or one after another.
fn make_parts<
    B: Board<Part> + Send,
    M: ManagerName + Send,
    R: Threads + Wait + Clock + CpuClock + Sync,
>(rt: &R, crew: &mut [Connection<B, M>], round: &Round<'_>) {
    let threads = (round.job.threads as usize).max(1);
    for_each_mut(
        rt,
        crew,
        threads,
        &|number, connection| make_part(rt, connection, number, round),
    );
}

/// Makes all rounds of `line` by the connections of `crew`.
fn play_rounds<
    B: Board<Part> + Send,
    M: ManagerName + Send,
    R: Threads + Wait + Clock + CpuClock + Sync,
>(rt: &R, crew: &mut [Connection<B, M>], line: &mut Line) {
    for _ in 0..line.rounds {
        let round = Round::new(&line.job);
        hold_all(rt, crew, &line.job);
        make_parts(rt, crew, &round);
        let taken = round.into_taken();
        line.note(rt, taken);
    }
}

/// Makes all rounds of `line` by the connections of the list `crew`.
fn play_crew<
    B: Board<Part> + Send,
    M: ManagerName + Send,
    R: Threads + Wait + Clock + CpuClock + Sync,
>(rt: &R, crew: &mut Vec<Connection<B, M>>, line: &mut Line)
    ensures as_many { length crew.new.items ≡ length crew.old.items }
{
    play_rounds(rt, crew.as_mut_slice(), line);
}

/// Makes all rounds of `line` by connections to `database` that `desk` opens and closes.
fn play_open<
    B: Board<Part> + Send,
    D: Desk<OwnSession<Part, B>>,
    M: ManagerName + Send,
    R: Threads + Wait + Clock + CpuClock + AllocGlobal + Sync,
>(rt: &R, desk: &mut DeskOf<B, D, M>, line: &mut Line, database: u32) -> Result<()>
    ensures live { D.live desk.new.desk ≡ D.live desk.old.desk }
{
    let mut crew = desk.open_all(rt, rt.alloc(), database, line.job.sessions())?;
    play_crew(rt, &mut crew, line);
    desk.close_all(rt, crew);
    Ok(())
}

/// Makes all rounds of `line` by connections to `database` of the desk in `slot`, of the manager that `M`
/// names.
fn play_at<
    B: Board<Part> + Send,
    D: Desk<OwnSession<Part, B>> + Drop,
    M: ManagerName + Send,
    R: Threads + Wait + Clock + CpuClock + AllocGlobal + Sync,
>(rt: &R, slot: &mut Option<D>, line: &mut Line, database: u32) -> Result<()>
    requires shows { ShowsSessions B.seat D.seat D.entries D.database_of }
    requires is { IsSomeAnd slot.old (λ desk. D.manager desk ≡ M.manager) }
    requires none_live { IfSome slot.old (λ desk. D.live desk ≡ 0) }
    ensures is { IsSomeAnd slot.new (λ desk. D.manager desk ≡ M.manager) }
    ensures none_live { IfSome slot.new (λ desk. D.live desk ≡ 0) }
{
    let mut desk = DeskOf::<B, D, M>::new(slot);
    let played = play_open(rt, &mut desk, line, database);
    let DeskOf { desk, of: _ } = desk;
    *slot = Some(desk);
    played
}

/// Makes all rounds of `line` by connections to `database` of the desk in `slot`. This function picks the
/// manager that the types of connections name.
fn play_over<
    B: Board<Part> + Send,
    D: Desk<OwnSession<Part, B>> + Drop,
    R: Threads + Wait + Clock + CpuClock + AllocGlobal + Sync,
>(rt: &R, slot: &mut Option<D>, line: &mut Line, database: u32) -> Result<()>
    requires shows { ShowsSessions B.seat D.seat D.entries D.database_of }
    requires there { IsSome slot.old }
    requires none_live { IfSome slot.old (λ desk. D.live desk ≡ 0) }
    ensures is { IsSomeAnd slot.new (λ desk. D.manager desk ≡ manager_in D.manager slot.old) }
    ensures none_live { IfSome slot.new (λ desk. D.live desk ≡ 0) }
{
    play_at::<B, D, Brand, R>(rt, slot, line, database)
}

/// Makes all rounds of `line`: by sessions of a manager of its own, which work in `database`, or by threads
/// that need none.
pub fn play<R: Threads + Wait + Clock + CpuClock + AllocGlobal + Sync>(
    rt: &R,
    line: &mut Line,
    database: u32,
) -> Result<()> {
    match line.plan.plain {
        Plain::Nothing => play_by_sessions(rt, line, database)?,
        plain => line.play_rounds(rt, plain),
    }
    line.see_granted()
}

/// Makes all rounds of `line` by sessions of a manager of its own, which work in `database`.
fn play_by_sessions<R: Threads + Wait + Clock + CpuClock + AllocGlobal + Sync>(
    rt: &R,
    line: &mut Line,
    database: u32,
) -> Result<()> {
    let config = Config {
        sessions: line.plan.sessions,
        max_local: MAX_LOCAL,
        slot_groups: line.plan.groups,
    };
    let (manager, opener) = Manager::for_server(rt.alloc(), config)?;
    let mut slot = Some(ManagerDesk::new(&manager, opener));
    let played = play_over(rt, &mut slot, line, database);
    let Some(desk) = slot else { unreachable!() };
    let opener = desk.into_opener();
    manager.finish(opener);
    played
}
