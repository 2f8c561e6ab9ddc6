//! A server: a manager from its beginning to its end, with the pool of its sessions, and what is played over
//! it.

ghost use Rattle.std.specs.Prelude.{◌≡◌, IsSome, IsSomeAnd};
ghost use Rattle.connections.specs.Managers.{manager_in};
ghost use Rattle.connections.specs.Shown.{ShowsSessions};

use crate::{monitor, report};
use connections::{ManagerName, Pool, nobody};
use lock_manager::{Board, Config, Desk, Manager, ManagerDesk, OwnSession, Part};
use std::alloc::Global;
use std::marker::Brand;
use std::sync::{Mutex, Wait};
use std::thread::Threads;
use std::time::Clock;

/// What is played over a server.
#[derive(Clone, Copy)]
pub enum Play {
    /// A day of the bank.
    Bank,
    /// Waits that a monitor logs.
    Monitor,
}

/// Plays `play` over a server with as many sessions as `sessions` says, and answers how many of these were
/// open at its end.
pub fn run<R: Threads + Wait + Clock + Sync + Print>(
    rt: &R,
    alloc: Global,
    sessions: u32,
    play: Play,
) -> anyhow::Result<u32> {
    let config = Config {
        sessions,
        max_local: 16,
        slot_groups: 1,
    };
    let (manager, opener) = Manager::for_server(alloc, config)?;
    let mut slot = Some(ManagerDesk::new(&manager, opener));
    let played = play_over(rt, alloc, &mut slot, play);
    let Some(desk) = slot else { unreachable!() };
    let opener = desk.into_opener();
    let live = opener.live();
    if live == 0 {
        manager.finish(opener);
    }
    played?;
    Ok(live)
}

/// Plays `play` over the desk in `slot`: this function picks the manager that the types of connections name.
fn play_over<
    B: Board<Part> + Send,
    D: Desk<OwnSession<Part, B>> + Send + Drop,
    R: Threads + Wait + Clock + Sync + Print,
>(rt: &R, alloc: Global, slot: &mut Option<D>, play: Play) -> anyhow::Result<()>
    requires shows { ShowsSessions B.seat D.seat D.entries D.database_of }
    requires there { IsSome slot.old }
    ensures is { IsSomeAnd slot.new (λ desk. D.manager desk ≡ manager_in D.manager slot.old) }
{
    play_at::<B, D, Brand, R>(rt, alloc, slot, play)
}

/// Plays `play` over the desk in `slot`, of the manager that `M` names.
fn play_at<
    B: Board<Part> + Send,
    D: Desk<OwnSession<Part, B>> + Send + Drop,
    M: ManagerName + Send,
    R: Threads + Wait + Clock + Sync + Print,
>(rt: &R, alloc: Global, slot: &mut Option<D>, play: Play) -> anyhow::Result<()>
    requires shows { ShowsSessions B.seat D.seat D.entries D.database_of }
    requires is { IsSomeAnd slot.old (λ desk. D.manager desk ≡ M.manager) }
    ensures is { IsSomeAnd slot.new (λ desk. D.manager desk ≡ M.manager) }
{
    let pool = Mutex::new(Pool::<B, D, M>::new(alloc, slot)?);
    let played = match play {
        Play::Bank => report::show(rt, alloc, &pool),
        Play::Monitor => monitor::show(rt, &pool),
    };
    let mut pool = Some(pool.into_inner());
    *slot = Pool::end(rt, &mut pool);
    nobody(pool);
    played
}
