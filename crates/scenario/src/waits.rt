//! The calls of a session that has to wait, or that waits, over any board, and what it is told.
ghost use Rattle.std.specs.Prelude.{IfOk, IfErr};
ghost use Rattle.lock_manager.specs.WaitingSessions.{WaitsOn};
ghost use Rattle.scenario.specs.Waits.{GivesUp, GoesOn, IsBegun, IsQueued, LooksOn, TellsBlocked};

use crate::answers::Said;
use lock_manager::{
    Acquired, Blocked, Cancelled, Mode, OwnSession, OwnWaiting, Owner, Polled, Refusal, Started,
    Tag,
};
use lock_table::PartTable;
use shared_rule::Board;
use std::sync::Wait;

/// Has `session` ask for `mode` on `tag` for `owner`, and wait where it must. The result is the session with
/// what it is answered, or the session that waits.
pub fn begin<T: PartTable, B: Board<T>, H: Wait>(
    rt: &H,
    session: OwnSession<T, B>,
    tag: Tag,
    mode: Mode,
    owner: Owner,
) -> Result<(OwnSession<T, B>, Said), OwnWaiting<T, B>>
    ensures begun { IfOk result (λ it. IsBegun B.seat B.view B.stack session tag mode owner it.1 it.0) }
    ensures queued { IfErr result (IsQueued B.seat B.view B.stack session tag mode owner) }
{
    match session.start(rt, tag, mode, owner) {
        Started::Granted(session) => Ok((session, Said::Acquired(Acquired::Granted))),
        Started::AlreadyHeld(session) => Ok((session, Said::Acquired(Acquired::AlreadyHeld))),
        Started::Queued(waiting) => Err(waiting),
        Started::Refused(session, refusal) => Ok((session, Said::Refused(refusal))),
    }
}

/// Polls the wait `waiting`, and carries a cancel out that was asked for. The result is the session that
/// waits no more with what it is answered, or the wait that goes on.
pub fn poll_wait<T: PartTable, B: Board<T>, H: Wait>(
    rt: &H,
    waiting: OwnWaiting<T, B>,
) -> Result<(OwnSession<T, B>, Said), OwnWaiting<T, B>>
    ensures goes_on { IfOk result (λ seen. GoesOn B.seat B.view B.stack waiting seen.1 seen.0) }
    ensures looks_on { IfErr result (LooksOn B.seat B.view B.stack waiting) }
{
    match waiting.poll() {
        Polled::Still(waiting) => Err(waiting),
        Polled::Granted(session) => Ok((session, Said::GrantedAfterWaiting)),
        Polled::CancelAsked(waiting) => match cancel(rt, waiting) {
            (session, true) => Ok((session, Said::GrantedAfterWaiting)),
            (session, false) => Ok((session, Said::Cancelled)),
        },
    }
}

/// The wait of the session `waiting` with those in its way, as the session says itself. Refused where there
/// is no memory for the list.
pub fn tell_blocked<T: PartTable, B: Board<T>, H: Wait>(
    rt: &H,
    waiting: &mut OwnWaiting<T, B>,
) -> Result<Blocked, Refusal>
    ensures told { IfOk result (TellsBlocked B.seat B.view B.stack waiting.old waiting.new) }
    ensures waits { WaitsOn B.seat B.view B.stack waiting.old waiting.new }
{
    let blockers = waiting.blockers(rt)?;
    Ok(Blocked {
        session: waiting.id(),
        tag: waiting.tag(),
        mode: waiting.mode(),
        blockers,
    })
}

/// Gives the wait `waiting` up. The result is its session, and whether the lock was granted before that.
pub fn cancel<T: PartTable, B: Board<T>, H: Wait>(
    rt: &H,
    waiting: OwnWaiting<T, B>,
) -> (OwnSession<T, B>, bool)
    ensures { GivesUp B.seat B.view B.stack waiting result.1 result.0 }
{
    match waiting.cancel(rt) {
        Cancelled::Removed(session) => (session, false),
        Cancelled::WasGranted(session) => (session, true),
    }
}
