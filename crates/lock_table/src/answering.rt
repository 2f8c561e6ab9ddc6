//! What a content answers a lock request: what the request clashes with, and where it goes in the
//! object's queue. Each function here only reads, and works on any keeper of a partition's content.

ghost use Rattle.std.specs.Prelude.{◌≡◌, option_map, Some};
ghost use Rattle.lock_table.specs.Clash.{ClashIs, first_waiter};
ghost use Rattle.lock_table.specs.Queue.{WaitingAnswer};
ghost use Rattle.lock_table.specs.Waiter.{shown_wait};

mod place;
mod walk;

use crate::part_table::PartTable;
use crate::waits::Waiter;
use modes_core::{How, Mode, SessionId, Tag};
pub use place::answer_by_place;
pub use walk::{first_against, is_against};

/// What is in the way of a request: another session, with its mode.
#[derive(Clone, Copy)]
pub struct Clash {
    /// The session that is in the way of a request.
    pub session: SessionId,
    /// The mode of the session in the way, which conflicts with the mode that the request asks for.
    pub mode: Mode,
    /// Whether the session in the way holds the conflicting mode or waits for it.
    pub how: How,
}

/// What a request of `session` for `tag` in `mode` clashes with in `part`, if anything: the first waiter that
/// awaits a conflicting mode, else the lowest-numbered session that holds one (`LockCheckConflicts` in
/// lock.c, after the look at `waitMask`).
#[inline(always)]
pub fn clash_with<P: PartTable>(
    part: &P,
    session: SessionId,
    tag: &Tag,
    mode: Mode,
) -> Option<Clash>
    ensures { ClashIs (P.content part.now) session tag.now mode result }
{
    if let Some(waiter) = waiter_against(part, tag, mode) {
        return Some(Clash {
            session: waiter.session,
            mode: waiter.mode,
            how: How::Awaited,
        });
    }
    let (other, its) = part.conflict_of(session, tag, mode)?;
    Some(Clash {
        session: other,
        mode: its,
        how: How::Held,
    })
}

/// What the request of `session` for `tag` in `mode` that is begun in `part` clashes with, if anything: the
/// answer of `clash_with`.
#[inline(always)]
pub fn clash_with_begun<P: PartTable>(
    part: &P,
    session: SessionId,
    tag: &Tag,
    mode: Mode,
) -> Option<Clash>
    requires begun { P.begun part.now ≡ Some (record { session = session; tag = tag.now; mode = mode }) }
    ensures { ClashIs (P.content part.now) session tag.now mode result }
{
    if let Some(waiter) = waiter_against(part, tag, mode) {
        return Some(Clash {
            session: waiter.session,
            mode: waiter.mode,
            how: How::Awaited,
        });
    }
    let (other, its) = part.conflict_of_begun(session, tag, mode)?;
    Some(Clash {
        session: other,
        mode: its,
        how: How::Held,
    })
}

/// The first waiter in the queue of `tag` that awaits a mode in conflict with `mode`. Mostly nobody waits,
/// which is asked first; and the queue is walked only where `PartTable::may_conflict` says that there may be
/// a conflict.
#[inline(always)]
fn waiter_against<P: PartTable>(part: &P, tag: &Tag, mode: Mode) -> Option<Waiter>
    ensures { option_map shown_wait result ≡ first_waiter ((P.content part.now).waits tag.now) mode }
{
    if part.waiter(tag, 0).is_none() {
        return None;
    }
    if !part.may_conflict(tag, mode) {
        return None;
    }
    first_against(part, tag, mode)
}

/// What a request that may wait is answered.
#[derive(Clone, Copy, PartialEq, Eq)]
pub enum Answer {
    /// The session that makes the request is to have its hold.
    Granted,
    /// The session that makes the request is to wait before the waiter at the given place of the queue,
    /// counted from the front, and after all waiters where the place is their number.
    Queued(usize),
    /// The request is refused: the session that makes it and the given session would wait for one another.
    SimpleDeadlock(SessionId),
}

/// The answer to a request of `session` for `tag` in `mode` that may wait: granted where it clashes with
/// nothing in `part`, otherwise by its place in the queue (`LockAcquireExtended` in lock.c, with `ProcSleep`
/// in proc.c).
pub fn waiting_answer<P: PartTable>(part: &P, session: SessionId, tag: &Tag, mode: Mode) -> Answer
    ensures { WaitingAnswer (P.content part.now) session tag.now mode result }
{
    match clash_with(part, session, tag, mode) {
        None => Answer::Granted,
        Some(_) => answer_by_place(part, session, tag, mode),
    }
}
