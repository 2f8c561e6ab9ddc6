//! What happens at a desk, and with a pool over it.

ghost use Rattle.std.specs.Prelude.{◌≡◌, IsSome, IsSomeAnd, IfSome};
ghost use Rattle.connections.specs.Managers.{manager_in};
ghost use Rattle.connections.specs.Shown.{ShowsSessions};

use crate::allocator::{refuse, was_refused};
use crate::told::Told;
use crate::trials::Trial;
use crate::{audits, desks, lives, pools, steady, telling};
use connections::{DeskOf, ManagerName, Pool, nobody};
use lock_manager::{Board, Desk, OwnSession, Part, Refusal};
use std::alloc::Global;
use std::marker::Brand;
use std::sync::Wait;

/// What happens at the desk of a manager.
#[derive(Clone, Copy)]
pub enum DeskCase<'a> {
    /// An audit counts what a connection has.
    Audits,
    /// A crew opens.
    OpensCrew,
    /// A pool of sessions opens one.
    Lends,
    /// What happens with a pool of connections.
    WithPool(PoolCase<'a>),
}

/// What happens with a pool of connections.
#[derive(Clone, Copy)]
pub enum PoolCase<'a> {
    /// The pool is made.
    IsMade,
    /// The pool opens a connection.
    Opens,
    /// The pool answers the lives of its sessions.
    Lives,
    /// The pool counts what is in its manager.
    Audits,
    /// Its connections run a trial.
    Tells(&'a Trial),
    /// Two connections go on for long, with every growth refused after their first round.
    GoesOn,
    /// Connections come and go for long, with every growth refused after the first one.
    ComesAndGoes,
}

/// Does `desk_case` at the desk in `slot`, which has nothing yet, with the growth numbered `growth` refused.
/// This function picks the manager that the types of connections name.
pub fn perform<B: Board<Part>, D: Desk<OwnSession<Part, B>> + Drop, R: Wait>(
    rt: &R,
    alloc: Global,
    slot: &mut Option<D>,
    desk_case: DeskCase<'_>,
    growth: u16,
) -> Told
    requires shows { ShowsSessions B.seat D.seat D.entries D.database_of }
    requires there { IsSome slot.old }
    requires none_live { IfSome slot.old (λ desk. D.live desk ≡ 0) }
    ensures is { IsSomeAnd slot.new (λ desk. D.manager desk ≡ manager_in D.manager slot.old) }
{
    match desk_case {
        DeskCase::WithPool(pool_case) => {
            with_pool::<B, D, Brand, R>(rt, alloc, slot, pool_case, growth)
        }
        _ => at_desk::<B, D, Brand, R>(rt, alloc, slot, desk_case, growth),
    }
}

/// Does `desk_case`, which needs no pool of connections, at the desk in `slot`, of the manager that `M`
/// names, with the growth numbered `growth` refused.
fn at_desk<B: Board<Part>, D: Desk<OwnSession<Part, B>> + Drop, M: ManagerName, R: Wait>(
    rt: &R,
    alloc: Global,
    slot: &mut Option<D>,
    desk_case: DeskCase<'_>,
    growth: u16,
) -> Told
    requires shows { ShowsSessions B.seat D.seat D.entries D.database_of }
    requires is { IsSomeAnd slot.old (λ desk. D.manager desk ≡ M.manager) }
    requires none_live { IfSome slot.old (λ desk. D.live desk ≡ 0) }
    ensures is { IsSomeAnd slot.new (λ desk. D.manager desk ≡ M.manager) }
{
    let mut desk = DeskOf::<B, D, M>::new(slot);
    let told = match desk_case {
        DeskCase::Audits => audits::tell(rt, alloc, &mut desk, growth),
        DeskCase::OpensCrew => desks::open_crew(rt, alloc, &mut desk, growth),
        DeskCase::Lends => desks::lend(rt, alloc, &mut desk, growth),
        DeskCase::WithPool(_) => Told::Otherwise,
    };
    let DeskOf { desk, of: _ } = desk;
    *slot = Some(desk);
    told
}

/// Does `pool_case` with a pool over the desk in `slot`, of the manager that `M` names, with the growth
/// numbered `growth` refused. Where the pool itself is refused memory, it is made once more.
fn with_pool<B: Board<Part>, D: Desk<OwnSession<Part, B>> + Drop, M: ManagerName, R: Wait>(
    rt: &R,
    alloc: Global,
    slot: &mut Option<D>,
    pool_case: PoolCase<'_>,
    growth: u16,
) -> Told
    requires shows { ShowsSessions B.seat D.seat D.entries D.database_of }
    requires is { IsSomeAnd slot.old (λ desk. D.manager desk ≡ M.manager) }
    ensures is { IsSomeAnd slot.new (λ desk. D.manager desk ≡ M.manager) }
{
    if let PoolCase::IsMade = pool_case {
        refuse(alloc, growth);
    }
    let made = Pool::<B, D, M>::new(alloc, slot);
    let refused = was_refused(alloc);
    let (made, ran_out) = match made {
        Ok(pool) => (Ok(pool), false),
        Err(refusal) => {
            let again = Pool::<B, D, M>::new(alloc, slot);
            (again, refusal == Refusal::NoMemory)
        }
    };
    let Ok(mut pool) = made else {
        return Told::Otherwise;
    };
    let told = match pool_case {
        PoolCase::IsMade => Told::of(refused, ran_out, true),
        PoolCase::Opens => pools::open(rt, alloc, &mut pool, growth),
        PoolCase::Lives => pools::lives(alloc, &pool, growth),
        PoolCase::Audits => pools::audit(rt, alloc, &mut pool, growth),
        PoolCase::Tells(trial) => telling::tell(rt, alloc, &mut pool, trial, growth),
        PoolCase::GoesOn => steady::tell(rt, alloc, &mut pool),
        PoolCase::ComesAndGoes => lives::tell(rt, alloc, &mut pool),
    };
    let mut pool = Some(pool);
    *slot = Pool::end(rt, &mut pool);
    nobody(pool);
    told
}
