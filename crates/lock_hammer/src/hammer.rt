//! A hammer: sessions that lock and unlock in threads of their own, and what is counted when they have ended.

ghost use Rattle.std.specs.Prelude.{◌≡◌, ◌≤◌, length, IfSome, IsSome, IsSomeAnd};
ghost use Rattle.connections.specs.Managers.{manager_in};
ghost use Rattle.connections.specs.Shown.{ShowsSessions};
ghost use Rattle.lock_hammer.specs.Sizes.{IsPlayable};
ghost use Rattle.modes_core.specs.Sessions.{usual_sessions};

use crate::progress::{Progress, Unwatched};
use crate::size::Hammer;
use crate::workers::{DATABASE, Gate, Reports, play};
use connections::{Connection, DeskOf, ManagerName};
use lock_manager::{Audit, Board, Config, Desk, Final, Manager, ManagerDesk, OwnSession, Part};
use lock_script::Fault;
use std::alloc::Global;
use std::io::Write;
use std::marker::Brand;
use std::sync::Wait;
use std::thread::Threads;

/// How many entries the local lock table of each session of a hammer may have.
const MAX_LOCAL: u32 = 16;

/// Has `sessions` sessions of a lock manager of its own play `rounds` rounds, each in a thread of its own,
/// once `gate` lets it pass. In round `r` session `s` asks relation `5/(16384 + r % 4)` for the mode with
/// number `1 + (s + r) % 8`, and unlocks what it is granted; every sixteenth time it waits, and else it is
/// refused where something is in the way. When all threads have ended, each session takes AccessShareLock on
/// `5/16384`, the first one ShareLock on `5/16385`, and two lines go to `writer`: what an audit counts, and,
/// when all sessions are closed, what the manager still has. Where a gate answered no, or memory ran out, the
/// hammer ends with `GateHeld` or `NoMemory` when all threads have ended and all sessions are closed.
pub fn run_hammer<H: AllocGlobal + Threads + Wait + Sync, G: Gate + Sync, W: Write + Drop>(
    rt: &H,
    gate: &G,
    writer: W,
    sessions: u32,
    rounds: u32,
) -> Result<(), Fault>
    requires sessions { (1 ≤ sessions) × (sessions ≤ usual_sessions) }
    requires rounds { (1 ≤ rounds) × (rounds ≤ 1000000) }
{
    run_watched_hammer(rt, gate, &Unwatched, writer, Hammer { sessions, rounds })
}

/// Has the sessions of a hammer of `size` play, each in a thread of its own, once `gate` lets it pass. Prints
/// on `writer` what an audit counts at the end, and what the manager has once all sessions are closed. Each
/// worker counts its rounds with `progress`, which ends once all workers have ended, before anything is
/// written.
pub fn run_watched_hammer<
    H: AllocGlobal + Threads + Wait + Sync,
    G: Gate + Sync,
    P: Progress + Sync,
    W: Write + Drop,
>(rt: &H, gate: &G, progress: &P, mut writer: W, size: Hammer) -> Result<(), Fault>
    requires { IsPlayable size }
{
    let alloc = rt.alloc();
    let config = Config {
        sessions: size.sessions,
        max_local: MAX_LOCAL,
        slot_groups: 1,
    };
    let Ok((manager, opener)) = Manager::new(alloc, config) else {
        return Err(Fault::NoMemory);
    };
    let mut slot = Some(ManagerDesk::new(&manager, opener));
    let reports = Reports::new(progress);
    let hammered = hammer_at::<_, _, Brand, _, _, _, _>(
        rt,
        alloc,
        gate,
        &reports,
        &mut slot,
        &mut writer,
        size,
    );
    let Some(desk) = slot else { unreachable!() };
    let opener = desk.into_opener();
    let last = manager.finish(opener);
    hammered?;
    print_final(&mut writer, last)
}

/// Has a hammer of `size` play over the desk in `slot`, of the manager that `M` names, as `hammer` does.
fn hammer_at<
    B: Board<Part> + Send,
    D: Desk<OwnSession<Part, B>> + Drop,
    M: ManagerName + Send,
    G: Gate + Sync,
    H: Threads + Wait + Sync,
    P: Progress + Sync,
    W: Write,
>(
    rt: &H,
    alloc: Global,
    gate: &G,
    reports: &Reports<P>,
    slot: &mut Option<D>,
    writer: &mut W,
    size: Hammer,
) -> Result<(), Fault>
    requires shows { ShowsSessions B.seat D.seat D.entries D.database_of }
    requires is { IsSomeAnd slot.old (λ desk. D.manager desk ≡ M.manager) }
    requires none_live { IfSome slot.old (λ desk. D.live desk ≡ 0) }
    ensures is { IsSomeAnd slot.new (λ desk. D.manager desk ≡ M.manager) }
    ensures none_live { IfSome slot.new (λ desk. D.live desk ≡ 0) }
{
    let mut desk = DeskOf::<B, D, M>::new(slot);
    let hammered = hammer(rt, alloc, gate, reports, &mut desk, writer, size);
    let DeskOf { desk, of: _ } = desk;
    *slot = Some(desk);
    hammered
}

/// Opens the connections of a hammer of `size` at `desk`, has them play, each once `gate` lets it pass, and
/// closes them. The workers report to `reports`, and `writer` gets what an audit counts before the close.
fn hammer<
    B: Board<Part> + Send,
    D: Desk<OwnSession<Part, B>>,
    M: ManagerName + Send,
    G: Gate + Sync,
    H: Threads + Wait + Sync,
    P: Progress + Sync,
    W: Write,
>(
    rt: &H,
    alloc: Global,
    gate: &G,
    reports: &Reports<P>,
    desk: &mut DeskOf<B, D, M>,
    writer: &mut W,
    size: Hammer,
) -> Result<(), Fault>
    requires none_live { D.live desk.old.desk ≡ 0 }
    ensures none_live { D.live desk.new.desk ≡ 0 }
{
    let Ok(mut crew) = desk.open_all(rt, alloc, DATABASE, size.sessions) else {
        return Err(Fault::NoMemory);
    };
    let hammered = play(rt, gate, reports, size.rounds, &mut crew);
    let counted = match hammered {
        Ok(()) => count(rt, alloc, desk, writer, &mut crew),
        Err(fault) => Err(fault),
    };
    desk.close_all(rt, crew);
    counted
}

/// Has `desk` count what those of `crew` have, which are all that are open, and prints it on `writer`.
fn count<B: Board<Part>, D: Desk<OwnSession<Part, B>>, M: ManagerName, H: Wait, W: Write>(
    rt: &H,
    alloc: Global,
    desk: &mut DeskOf<B, D, M>,
    writer: &mut W,
    crew: &mut Vec<Connection<B, M>>,
) -> Result<(), Fault>
    requires all { length crew.old.items ≡ D.live desk.old.desk }
    ensures as_many { length crew.new.items ≡ length crew.old.items }
    ensures live { D.live desk.new.desk ≡ D.live desk.old.desk }
{
    match desk.audit(rt, alloc, crew) {
        Ok(audit) => print_audit(writer, audit),
        Err(_) => Err(Fault::NoMemory),
    }
}

/// Prints on `writer` what the audit `audit` counted.
fn print_audit<W: Write>(writer: &mut W, audit: Audit) -> Result<(), Fault> {
    let Audit {
        fast,
        table,
        strong,
    } = audit;
    let written = writeln!(writer, "audit fast {fast} table {table} strong {strong}");
    written.map_err(|_| Fault::WriteFailed)
}

/// Prints on `writer` what `last` says was in the manager at its end.
fn print_final<W: Write>(writer: &mut W, last: Final) -> Result<(), Fault> {
    let Final {
        fast,
        table,
        strong,
    } = last;
    let written = writeln!(writer, "final fast {fast} table {table} strong {strong}");
    written.map_err(|_| Fault::WriteFailed)?;
    writer.flush().map_err(|_| Fault::WriteFailed)
}
